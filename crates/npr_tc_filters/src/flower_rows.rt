//! The one list of rows of flower filters, in parts by their numbers, and what is made of it.

/// The rows of the table: codecs as in `npr_base`, and `octets exactly 6` for so many bytes, as they stand.
macro_rules! rows {
    ($body:ident ($($given:tt)*)) => {
        $body!(($($given)*)
            low {
                1 ClassId(TcHandle exactly 4);
                2 InDev(name);
                3 Actions(list TcActions);
                4 EthDst(octets exactly 6);
                5 EthDstMask(octets exactly 6);
                6 EthSrc(octets exactly 6);
                7 EthSrcMask(octets exactly 6);
                8 EthType(be16);
                9 IpProto(byte);
                10 Ipv4Src(octets4);
                11 Ipv4SrcMask(octets4);
                12 Ipv4Dst(octets4);
                13 Ipv4DstMask(octets4);
                14 Ipv6Src(octets16);
                15 Ipv6SrcMask(octets16);
                16 Ipv6Dst(octets16);
                17 Ipv6DstMask(octets16);
                18 TcpSrc(be16);
                19 TcpDst(be16);
                20 UdpSrc(be16);
            }
            addresses {
                21 UdpDst(be16);
                22 Flags(le32);
                23 VlanId(le16);
                24 VlanPrio(byte);
                25 VlanEthType(be16);
                26 EncKeyId(be32);
                27 EncKeyIpv4Src(octets4);
                28 EncKeyIpv4SrcMask(octets4);
                29 EncKeyIpv4Dst(octets4);
                30 EncKeyIpv4DstMask(octets4);
                31 EncKeyIpv6Src(octets16);
                32 EncKeyIpv6SrcMask(octets16);
                33 EncKeyIpv6Dst(octets16);
                34 EncKeyIpv6DstMask(octets16);
                35 TcpSrcMask(be16);
                36 TcpDstMask(be16);
                37 UdpSrcMask(be16);
                38 UdpDstMask(be16);
                39 SctpSrcMask(be16);
                40 SctpDstMask(be16);
            }
            tunnel {
                41 SctpSrc(be16);
                42 SctpDst(be16);
                43 EncKeyUdpSrcPort(be16);
                44 EncKeyUdpSrcPortMask(be16);
                45 EncKeyUdpDstPort(be16);
                46 EncKeyUdpDstPortMask(be16);
                47 KeyFlags(be32);
                48 KeyFlagsMask(be32);
                49 Icmpv4Code(byte);
                50 Icmpv4CodeMask(byte);
                51 Icmpv4Type(byte);
                52 Icmpv4TypeMask(byte);
                53 Icmpv6Code(byte);
                54 Icmpv6CodeMask(byte);
                55 Icmpv6Type(byte);
                56 Icmpv6TypeMask(byte);
                57 ArpSip(octets4);
                58 ArpSipMask(octets4);
                59 ArpTip(octets4);
                60 ArpTipMask(octets4);
            }
            arp {
                61 ArpOp(byte);
                62 ArpOpMask(byte);
                63 ArpSha(octets exactly 6);
                64 ArpShaMask(octets exactly 6);
                65 ArpTha(octets exactly 6);
                66 ArpThaMask(octets exactly 6);
                67 MplsTtl(byte);
                68 MplsBos(byte);
                69 MplsTc(byte);
                70 MplsLabel(le32);
                71 TcpFlags(be16);
                72 TcpFlagsMask(be16);
                73 IpTos(byte);
                74 IpTosMask(byte);
                75 IpTtl(byte);
                76 IpTtlMask(byte);
                77 CvlanId(le16);
                78 CvlanPrio(byte);
                79 CvlanEthType(be16);
                80 EncKeyIpTos(byte);
            }
            high {
                81 EncKeyIpTosMask(byte);
                82 EncKeyIpTtl(byte);
                83 EncKeyIpTtlMask(byte);
                84 EncOpts(list TcEnc);
                85 EncOptsMask(list TcEnc);
                86 InHwCount(le32);
                87 PortSrcMin(be16);
                88 PortSrcMax(be16);
                89 PortDstMin(be16);
                90 PortDstMax(be16);
                91 CtState(le16);
                92 CtStateMask(le16);
                93 CtZone(le16);
                94 CtZoneMask(le16);
                95 CtMark(le32);
                96 CtMarkMask(le32);
                97 CtLabels(octets exactly 16);
                98 CtLabelsMask(octets exactly 16);
            }
            late {
                99 MplsOpts(list TcFilterFlowerMpls) as NLA_F_NESTED + 99;
                100 KeyHash(le32);
                101 KeyHashMask(le32);
                102 NumOfVlans(byte);
                103 PppoeSid(be16);
                104 PppProto(be16);
                105 L2tpv3Sid(be32);
                106 L2Miss(byte);
                107 Cfm(list TcFlowerCfm) as NLA_F_NESTED + 107;
                108 Spi(be32);
                109 SpiMask(be32);
                110 EncFlags(be32);
                111 EncFlagsMask(be32);
            }
        )
    };
}

/// One part of the rows, to the macro that stands behind its name, with what is given to that.
macro_rules! one_part {
    ((low $to:ident $given:tt) low $rows:tt $($others:tt)*) => {
        $to!($given $rows)
    };
    ((addresses $to:ident $given:tt) addresses $rows:tt $($others:tt)*) => {
        $to!($given $rows)
    };
    ((tunnel $to:ident $given:tt) tunnel $rows:tt $($others:tt)*) => {
        $to!($given $rows)
    };
    ((arp $to:ident $given:tt) arp $rows:tt $($others:tt)*) => {
        $to!($given $rows)
    };
    ((high $to:ident $given:tt) high $rows:tt $($others:tt)*) => {
        $to!($given $rows)
    };
    ((late $to:ident $given:tt) late $rows:tt $($others:tt)*) => {
        $to!($given $rows)
    };
    ($asked:tt $other:ident $rows:tt $($others:tt)*) => {
        one_part!($asked $($others)*)
    };
}

/// All rows, to a macro of `npr_base`.
macro_rules! all_parts {
    (($to:ident ($($given:tt)*)) $($part:ident { $($rows:tt)* })*) => {
        npr_base::$to!(($($given)*) TcFilterFlowerOption of TcFilterFlower { $($($rows)*)* })
    };
}

/// The kind that is written, or 0 of an attribute that no row has the number of, and the value.
macro_rules! value_rows {
    (($of:expr) $($part:ident { $($number:tt $variant:ident ($($codec:tt)+) $(as $kind:expr)?;)* })*) => {
        match $of {
            $($(TcFilterFlowerOption::$variant(x) => (npr_base::last!($number $(, $kind)?), value_row!([x] $($codec)+)),)*)*
            TcFilterFlowerOption::Other(nla) => (0, FlowerValue::Other(nla)),
        }
    };
}

/// A row's part of it.
macro_rules! value_row {
    ([$x:ident] byte) => {
        FlowerValue::Byte(*$x)
    };
    ([$x:ident] le16) => {
        FlowerValue::Little16(*$x)
    };
    ([$x:ident] le32) => {
        FlowerValue::Little32(*$x)
    };
    ([$x:ident] be16) => {
        FlowerValue::Big16(*$x)
    };
    ([$x:ident] be32) => {
        FlowerValue::Big32(*$x)
    };
    ([$x:ident] octets4) => {
        FlowerValue::Octets4(*$x)
    };
    ([$x:ident] octets16) => {
        FlowerValue::Octets16(*$x)
    };
    ([$x:ident] octets exactly 6) => {
        FlowerValue::Six(*$x)
    };
    ([$x:ident] octets exactly 16) => {
        FlowerValue::Sixteen(*$x)
    };
    ([$x:ident] TcHandle exactly 4) => {
        FlowerValue::Handle(*$x)
    };
    ([$x:ident] name) => {
        FlowerValue::Name($x)
    };
    ([$x:ident] list TcActions) => {
        FlowerValue::Actions($x)
    };
    ([$x:ident] list TcFilterFlowerMpls) => {
        FlowerValue::Mpls($x)
    };
    ([$x:ident] list TcFlowerCfm) => {
        FlowerValue::Cfm($x)
    };
    ([$x:ident] list TcEnc) => {
        FlowerValue::Enc($x)
    };
}

/// The name of the variant.
macro_rules! name_rows {
    (($of:expr) $($part:ident { $($number:tt $variant:ident ($($codec:tt)+) $(as $kind:expr)?;)* })*) => {
        match $of {
            $($(TcFilterFlowerOption::$variant(_) => stringify!($variant),)*)*
            TcFilterFlowerOption::Other(_) => "Other",
        }
    };
}

/// Puts an attribute by its number: a row of one part is one call. Lists are asked for before, so their
/// arms can't be reached.
macro_rules! put_part {
    (($place:expr, $alloc:expr, $item:expr, $rest:expr $(; $($more:tt)*)?) { $($number:tt $variant:ident ($($codec:tt)+) $(as $kind:expr)?;)* }) => {
        match $item.kind() {
            $($($more)*)?
            $($number => put_row!([$place, $alloc, $item, $number, TcFilterFlowerOption::$variant] $($codec)+),)*
            _ => $rest,
        }
    };
}

/// A row's part of it.
macro_rules! put_row {
    ([$place:expr, $alloc:expr, $item:expr, $number:tt, $variant:expr] list $set:ident) => {
        unreachable!()
    };
    ([$place:expr, $alloc:expr, $item:expr, $number:tt, $variant:expr] name) => {
        put_text($place, $alloc, $item, AttributeSet::TcFilterFlower, $number, $variant)
    };
    ([$place:expr, $alloc:expr, $item:expr, $number:tt, $variant:expr] be16) => {
        put_big($place, $item, AttributeSet::TcFilterFlower, $number, $variant)
    };
    ([$place:expr, $alloc:expr, $item:expr, $number:tt, $variant:expr] be32) => {
        put_big($place, $item, AttributeSet::TcFilterFlower, $number, $variant)
    };
    ([$place:expr, $alloc:expr, $item:expr, $number:tt, $variant:expr] $($codec:tt)+) => {
        put_exactly($place, $item, AttributeSet::TcFilterFlower, $number, $variant)
    };
}

/// By a number of one part: the place that refusals tell, and how the value is read without memory.
macro_rules! form_part {
    (($number:expr, $rest:expr $(; $($more:tt)*)?) { $($row:tt $variant:ident ($($codec:tt)+) $(as $kind:expr)?;)* }) => {{
        let at = AttributeSet::TcFilterFlower.at($number);
        match $number {
            $($($more)*)?
            $($row => (at, npr_base::form_row!($($codec)+)),)*
            _ => $rest,
        }
    }};
}

pub(crate) use all_parts;
pub(crate) use form_part;
pub(crate) use name_rows;
pub(crate) use one_part;
pub(crate) use put_part;
pub(crate) use put_row;
pub(crate) use rows;
pub(crate) use value_row;
pub(crate) use value_rows;
