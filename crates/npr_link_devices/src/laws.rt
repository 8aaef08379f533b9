//! The laws of devices over other links, over their definitions alone. Each function does nothing, and
//! its contract is the law.

ghost use Rattle.std.specs.Prelude.{◌≡◌, ◌≤◌, ◌^◌, ℕ, List, ◌∷◌, [], true, length};
ghost use Rattle.{
  npr_base.specs.{Equality.{IsEquality, IsEqualityOf}, Lists.{encodings}, Rows.{agrees}},
  npr_link_devices.specs.{
    AdInfo.{family as ad_info_family},
    AllPortActive.{all_port_actives},
    ArpAllTargets.{arp_all_target_rules},
    ArpValidate.{arp_validations},
    Bond.{family as bond_family},
    BondMode.{bond_modes},
    BondPort.{family as bond_port_family},
    BondPortState.{bond_port_states},
    FailOverMac.{fail_over_macs},
    Hsr.{family as hsr_family},
    HsrProtocol.{hsr_protocols},
    IpVlan.{family as ip_vlan_family},
    IpVlanFlags.{ip_vlan_flag_bits},
    IpVlanMode.{ip_vlan_modes},
    Ipoib.{family as ipoib_family},
    IpoibMode.{ipoib_modes},
    LacpRate.{lacp_rates},
    MacSec.{family as mac_sec_family},
    MacSecCipher.{mac_sec_ciphers},
    MacSecOffload.{mac_sec_offloads},
    MacSecValidate.{mac_sec_validations},
    MacVlan.{family as mac_vlan_family},
    MacVlanAddress.{family as mac_vlan_address_family},
    MacVlanAddressMode.{mac_vlan_address_modes},
    MacVlanFlags.{mac_vlan_flag_bits},
    MacVlanMode.{mac_vlan_modes},
    MiiStatus.{mii_statuses},
    PrimaryReselect.{primary_reselects},
    Targets.{address_bytes, in_order},
    Tun.{family as tun_family},
    TunType.{tun_types},
    XmitHashPolicy.{xmit_hash_policies},
  },
};

use crate::ad_info::BondAdInfo;
use crate::all_port_active::BondAllPortActive;
use crate::arp_all_targets::BondArpAllTargets;
use crate::arp_validate::BondArpValidate;
use crate::bond::InfoBond;
use crate::bond_mode::BondMode;
use crate::bond_port::InfoBondPort;
use crate::bond_port_state::BondPortState;
use crate::fail_over_mac::BondFailOverMac;
use crate::hsr::InfoHsr;
use crate::hsr_protocol::HsrProtocol;
use crate::ip_vlan::InfoIpVlan;
use crate::ip_vlan_flags::IpVlanFlags;
use crate::ip_vlan_mode::IpVlanMode;
use crate::ipoib::InfoIpoib;
use crate::ipoib_mode::IpoibMode;
use crate::lacp_rate::BondLacpRate;
use crate::mac_sec::InfoMacSec;
use crate::mac_sec_cipher::MacSecCipherId;
use crate::mac_sec_offload::MacSecOffload;
use crate::mac_sec_validate::MacSecValidate;
use crate::mac_vlan::InfoMacVlan;
use crate::mac_vlan_address::MacVlanAddress;
use crate::mac_vlan_address_mode::MacVlanMacAddressMode;
use crate::mac_vlan_flags::MacVlanFlags;
use crate::mac_vlan_mode::MacVlanMode;
use crate::mii_status::MiiStatus;
use crate::primary_reselect::BondPrimaryReselect;
use crate::tun::InfoTun;
use crate::tun_type::TunType;
use crate::xmit_hash_policy::BondXmitHashPolicy;

/// What a number reads as is written as that number.
pub fn law_numbers()
    ensures bond_modes { (d : ℕ) → bond_modes.number (bond_modes.of d) ≡ d }
    ensures arp_validations { (d : ℕ) → arp_validations.number (arp_validations.of d) ≡ d }
    ensures arp_all_target_rules { (d : ℕ) → arp_all_target_rules.number (arp_all_target_rules.of d) ≡ d }
    ensures primary_reselects { (d : ℕ) → primary_reselects.number (primary_reselects.of d) ≡ d }
    ensures fail_over_macs { (d : ℕ) → fail_over_macs.number (fail_over_macs.of d) ≡ d }
    ensures xmit_hash_policies { (d : ℕ) → xmit_hash_policies.number (xmit_hash_policies.of d) ≡ d }
    ensures all_port_actives { (d : ℕ) → all_port_actives.number (all_port_actives.of d) ≡ d }
    ensures lacp_rates { (d : ℕ) → lacp_rates.number (lacp_rates.of d) ≡ d }
    ensures bond_port_states { (d : ℕ) → bond_port_states.number (bond_port_states.of d) ≡ d }
    ensures mii_statuses { (d : ℕ) → mii_statuses.number (mii_statuses.of d) ≡ d }
    ensures mac_vlan_modes { (d : ℕ) → mac_vlan_modes.number (mac_vlan_modes.of d) ≡ d }
    ensures mac_vlan_address_modes { (d : ℕ) → mac_vlan_address_modes.number (mac_vlan_address_modes.of d) ≡ d }
    ensures ip_vlan_modes { (d : ℕ) → ip_vlan_modes.number (ip_vlan_modes.of d) ≡ d }
    ensures tun_types { (d : ℕ) → tun_types.number (tun_types.of d) ≡ d }
    ensures hsr_protocols { (d : ℕ) → hsr_protocols.number (hsr_protocols.of d) ≡ d }
    ensures ipoib_modes { (d : ℕ) → ipoib_modes.number (ipoib_modes.of d) ≡ d }
    ensures mac_sec_ciphers { (d : ℕ) → mac_sec_ciphers.number (mac_sec_ciphers.of d) ≡ d }
    ensures mac_sec_offloads { (d : ℕ) → mac_sec_offloads.number (mac_sec_offloads.of d) ≡ d }
    ensures mac_sec_validations { (d : ℕ) → mac_sec_validations.number (mac_sec_validations.of d) ≡ d }
{}

/// Targets of a bond that an attribute can hold are written with the numbers 0, 1, 2 and so on.
pub fn law_targets()
    ensures numbered { (xs : List (List ℕ)) → length (address_bytes xs) ≤ 65531 → address_bytes xs ≡ encodings (λ x. x) (in_order 0 xs) }
{}

/// The named flags, by their bits (`linux/if_link.h`).
pub fn law_flags()
    ensures mac_vlan_flags { agrees mac_vlan_flag_bits.number ((2 ^ 0, MacVlanFlags.NoPromisc) ∷ (2 ^ 1, MacVlanFlags.NoDst) ∷ []) ≡ true }
    ensures ip_vlan_flags { agrees ip_vlan_flag_bits.number ((2 ^ 0, IpVlanFlags.Private) ∷ (2 ^ 1, IpVlanFlags.Vepa) ∷ []) ≡ true }
{}

/// Which value is the default.
pub fn law_default()
    ensures bond_mode { (x : BondMode) → ⟦<BondMode as Default>⟧.is_default x → x ≡ BondMode.BalanceRr }
    ensures arp_validation { (x : BondArpValidate) → ⟦<BondArpValidate as Default>⟧.is_default x → x ≡ BondArpValidate.None }
    ensures arp_all_targets { (x : BondArpAllTargets) → ⟦<BondArpAllTargets as Default>⟧.is_default x → x ≡ BondArpAllTargets.Any }
    ensures primary_reselect { (x : BondPrimaryReselect) → ⟦<BondPrimaryReselect as Default>⟧.is_default x → x ≡ BondPrimaryReselect.Always }
    ensures fail_over_mac { (x : BondFailOverMac) → ⟦<BondFailOverMac as Default>⟧.is_default x → x ≡ BondFailOverMac.None }
    ensures xmit_hash_policy { (x : BondXmitHashPolicy) → ⟦<BondXmitHashPolicy as Default>⟧.is_default x → x ≡ BondXmitHashPolicy.Layer2 }
    ensures mac_vlan_flags { (x : MacVlanFlags) → ⟦<MacVlanFlags as Default>⟧.is_default x → x ≡ mac_vlan_flag_bits.of 0 }
    ensures ip_vlan_flags { (x : IpVlanFlags) → ⟦<IpVlanFlags as Default>⟧.is_default x → x ≡ ip_vlan_flag_bits.of 0 }
{}

/// `==` answers whether two values are equal.
pub fn law_equality()
    ensures bond_mode { IsEquality ⟦<BondMode as PartialEq>⟧.eq }
    ensures arp_validation { IsEquality ⟦<BondArpValidate as PartialEq>⟧.eq }
    ensures arp_all_targets { IsEquality ⟦<BondArpAllTargets as PartialEq>⟧.eq }
    ensures primary_reselect { IsEquality ⟦<BondPrimaryReselect as PartialEq>⟧.eq }
    ensures fail_over_mac { IsEquality ⟦<BondFailOverMac as PartialEq>⟧.eq }
    ensures xmit_hash_policy { IsEquality ⟦<BondXmitHashPolicy as PartialEq>⟧.eq }
    ensures all_port_active { IsEquality ⟦<BondAllPortActive as PartialEq>⟧.eq }
    ensures lacp_rate { IsEquality ⟦<BondLacpRate as PartialEq>⟧.eq }
    ensures bond_port_state { IsEquality ⟦<BondPortState as PartialEq>⟧.eq }
    ensures mii_status { IsEquality ⟦<MiiStatus as PartialEq>⟧.eq }
    ensures mac_vlan_mode { IsEquality ⟦<MacVlanMode as PartialEq>⟧.eq }
    ensures mac_vlan_address_mode { IsEquality ⟦<MacVlanMacAddressMode as PartialEq>⟧.eq }
    ensures ip_vlan_mode { IsEquality ⟦<IpVlanMode as PartialEq>⟧.eq }
    ensures tun_type { IsEquality ⟦<TunType as PartialEq>⟧.eq }
    ensures mac_vlan_flags { IsEquality ⟦<MacVlanFlags as PartialEq>⟧.eq }
    ensures ip_vlan_flags { IsEquality ⟦<IpVlanFlags as PartialEq>⟧.eq }
    ensures hsr_protocol { IsEquality ⟦<HsrProtocol as PartialEq>⟧.eq }
    ensures ipoib_mode { IsEquality ⟦<IpoibMode as PartialEq>⟧.eq }
    ensures mac_sec_cipher { IsEquality ⟦<MacSecCipherId as PartialEq>⟧.eq }
    ensures mac_sec_offload { IsEquality ⟦<MacSecOffload as PartialEq>⟧.eq }
    ensures mac_sec_validate { IsEquality ⟦<MacSecValidate as PartialEq>⟧.eq }
{}

/// `==` answers whether two values mean the same, where they hold a vector.
pub fn law_equality_of_meanings()
    ensures ip_vlan { IsEqualityOf ip_vlan_family.meaning ⟦<InfoIpVlan as PartialEq>⟧.eq }
    ensures tun { IsEqualityOf tun_family.meaning ⟦<InfoTun as PartialEq>⟧.eq }
    ensures mac_vlan_address { IsEqualityOf mac_vlan_address_family.meaning ⟦<MacVlanAddress as PartialEq>⟧.eq }
    ensures mac_vlan { IsEqualityOf mac_vlan_family.meaning ⟦<InfoMacVlan as PartialEq>⟧.eq }
    ensures ad_info { IsEqualityOf ad_info_family.meaning ⟦<BondAdInfo as PartialEq>⟧.eq }
    ensures bond_port { IsEqualityOf bond_port_family.meaning ⟦<InfoBondPort as PartialEq>⟧.eq }
    ensures bond { IsEqualityOf bond_family.meaning ⟦<InfoBond as PartialEq>⟧.eq }
    ensures hsr { IsEqualityOf hsr_family.meaning ⟦<InfoHsr as PartialEq>⟧.eq }
    ensures ipoib { IsEqualityOf ipoib_family.meaning ⟦<InfoIpoib as PartialEq>⟧.eq }
    ensures mac_sec { IsEqualityOf mac_sec_family.meaning ⟦<InfoMacSec as PartialEq>⟧.eq }
{}
