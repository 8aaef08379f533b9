//! A cipher suite of MACsec: `MACSEC_CIPHER_ID_*` of `linux/if_macsec.h`.

ghost use Rattle.std.specs.Prelude.{◌≡◌};
ghost use Rattle.npr_link_devices.specs.MacSecCipher.{mac_sec_ciphers};

/// A cipher suite of MACsec: `MACSEC_CIPHER_ID_*` of `linux/if_macsec.h`. It is written as 8 bytes, little endian.
#[derive(Clone, Copy, Debug, PartialEq, Eq)]
pub enum MacSecCipherId {
    /// GCM-AES-128, as IEEE 802.1AE-2006 numbers it: `MACSEC_DEFAULT_CIPHER_ID`.
    DefaultGcmAes128,
    /// GCM-AES-128.
    GcmAes128,
    /// GCM-AES-256.
    GcmAes256,
    /// GCM-AES-XPN-128.
    GcmAesXpn128,
    /// GCM-AES-XPN-256.
    GcmAesXpn256,
    /// Any other number.
    Other(u64),
}

/// Their numbers.
macro_rules! numbers {
    ($body:ident ($($given:tt)*)) => {
        npr_base::$body!(($($given)*) MacSecCipherId {
            0x80020001000001 DefaultGcmAes128;
            0x80c20001000001 GcmAes128;
            0x80c20001000002 GcmAes256;
            0x80c20001000003 GcmAesXpn128;
            0x80c20001000004 GcmAesXpn256;
        })
    };
}

impl From<u64> for MacSecCipherId {
    ghost from_gives = { λ number value. value ≡ mac_sec_ciphers.of number };

    fn from(number: u64) -> MacSecCipherId {
        numbers!(variant_of_number(number))
    }
}

impl From<MacSecCipherId> for u64 {
    ghost from_gives = { λ value number. number ≡ mac_sec_ciphers.number value };

    fn from(value: MacSecCipherId) -> u64 {
        numbers!(number_of_variant(value))
    }
}
