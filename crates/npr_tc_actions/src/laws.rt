//! The laws of actions, over their definitions alone. Each function does nothing, and its contract is the
//! law.

ghost use Rattle.std.specs.Prelude.{◌≡◌, ◌^◌, ◌∷◌, [], ℕ, ℤ, pos, true};
ghost use Rattle.{
  npr_base.specs.{Equality.{IsEquality, IsEqualityOf}, Rows.{agrees}},
  npr_tc_actions.specs.{
    Action.{family as action_family},
    ActionOption.{action_option_of},
    ActionType.{action_types},
    Attribute.{family},
    BpfOption.{family as bpf_option_family},
    CsumFlags.{csum_flag_bits},
    CsumOption.{family as csum_option_family},
    CtFlags.{ct_flag_bits},
    CtOption.{family as ct_option_family},
    EncErspan.{family as enc_erspan_family},
    EncGeneve.{family as enc_geneve_family},
    EncGtp.{family as enc_gtp_family},
    EncOption.{family as enc_option_family},
    EncPfcp.{family as enc_pfcp_family},
    EncVxlan.{family as enc_vxlan_family},
    GactOption.{family as gact_option_family},
    PeditCommand.{pedit_commands},
    PeditHeaderType.{pedit_header_types},
    PeditKeyEx.{family as pedit_key_ex_family},
    PeditKeysEx.{family as pedit_keys_ex_family},
    PeditOption.{family as pedit_option_family},
    PeditSelector.{pedit_parts},
    PoliceOption.{family as police_option_family},
    SampleOption.{family as sample_option_family},
    SkbeditOption.{family as skbedit_option_family},
    VlanActionType.{vlan_action_types},
    VlanOption.{family as vlan_option_family},
    MirrorActionType.{mirror_action_types},
    MirrorOption.{family as mirror_family},
    Nat.{default_nat},
    NatFlags.{nat_flag_bits},
    NatOption.{family as nat_family},
    TunnelKeyOption.{family as tunnel_key_family},
  },
};

use crate::action::TcAction;
use crate::action_option::TcActionOption;
use crate::action_type::TcActionType;
use crate::attribute::TcActionAttribute;
use crate::bpf_instruction::TcBpfInstruction;
use crate::bpf_option::TcActionBpfOption;
use crate::csum::TcCsum;
use crate::csum_flags::TcCsumFlags;
use crate::csum_option::TcActionCsumOption;
use crate::ct_flags::TcCtFlags;
use crate::ct_option::TcActionCtOption;
use crate::enc_erspan::TcEncErspan;
use crate::enc_geneve::TcEncGeneve;
use crate::enc_gtp::TcEncGtp;
use crate::enc_option::TcEncOption;
use crate::enc_pfcp::TcEncPfcp;
use crate::enc_vxlan::TcEncVxlan;
use crate::form::TcActionForm;
use crate::gact_option::TcActionGactOption;
use crate::gact_probability::TcGactProbability;
use crate::generic::TcActionGeneric;
use crate::mirror::TcMirror;
use crate::mirror_action_type::TcMirrorActionType;
use crate::mirror_option::TcActionMirrorOption;
use crate::nat::TcNat;
use crate::nat_flags::TcNatFlags;
use crate::nat_option::TcActionNatOption;
use crate::pedit_command::TcPeditCommand;
use crate::pedit_header_type::TcPeditHeaderType;
use crate::pedit_key::TcPeditKey;
use crate::pedit_key_ex::TcPeditKeyEx;
use crate::pedit_keys_ex::TcPeditKeysEx;
use crate::pedit_option::TcActionPeditOption;
use crate::pedit_selector::TcPeditSelector;
use crate::police::TcPolice;
use crate::police_option::TcActionPoliceOption;
use crate::sample_option::TcActionSampleOption;
use crate::skbedit_option::TcActionSkbeditOption;
use crate::tcf::Tcf;
use crate::tunnel_key::TcTunnelKey;
use crate::tunnel_key_option::TcActionTunnelKeyOption;
use crate::vlan::TcVlan;
use crate::vlan_action_type::TcVlanActionType;
use crate::vlan_option::TcActionVlanOption;

/// What a number reads as is written as that number.
pub fn law_numbers()
    ensures action { (d : ℤ) → action_types.number (action_types.of d) ≡ d }
    ensures mirror { (d : ℤ) → mirror_action_types.number (mirror_action_types.of d) ≡ d }
    ensures pedit_header_type { (d : ℕ) → pedit_header_types.number (pedit_header_types.of d) ≡ d }
    ensures pedit_command { (d : ℕ) → pedit_commands.number (pedit_commands.of d) ≡ d }
    ensures vlan { (d : ℤ) → vlan_action_types.number (vlan_action_types.of d) ≡ d }
{}

/// The named flags, by their bits (`linux/tc_act/tc_nat.h`, `tc_csum.h`, `tc_ct.h`).
pub fn law_flags()
    ensures csum { agrees csum_flag_bits.number ((2 ^ 0, TcCsumFlags.Ipv4Hdr) ∷ (2 ^ 1, TcCsumFlags.Icmp) ∷ (2 ^ 2, TcCsumFlags.Igmp)
        ∷ (2 ^ 3, TcCsumFlags.Tcp) ∷ (2 ^ 4, TcCsumFlags.Udp) ∷ (2 ^ 5, TcCsumFlags.UdpLite) ∷ (2 ^ 6, TcCsumFlags.Sctp) ∷ []) ≡ true }
    ensures ct { agrees ct_flag_bits.number ((2 ^ 0, TcCtFlags.Commit) ∷ (2 ^ 1, TcCtFlags.Force) ∷ (2 ^ 2, TcCtFlags.Clear)
        ∷ (2 ^ 3, TcCtFlags.Nat) ∷ (2 ^ 4, TcCtFlags.NatSrc) ∷ (2 ^ 5, TcCtFlags.NatDst) ∷ []) ≡ true }
    ensures nat { agrees nat_flag_bits.number ((2 ^ 0, TcNatFlags.Egress) ∷ (2 ^ 16, TcNatFlags.Police) ∷ (2 ^ 17, TcNatFlags.Bind)
        ∷ (2 ^ 18, TcNatFlags.Replace) ∷ (2 ^ 19, TcNatFlags.NoRtnl) ∷ (2 ^ 20, TcNatFlags.AtIngress) ∷ []) ≡ true }
{}

/// Which value is the default.
pub fn law_default()
    ensures flags { (x : TcNatFlags) → ⟦<TcNatFlags as Default>⟧.is_default x → x ≡ nat_flag_bits.of 0 }
    ensures nat { (x : TcNat) → ⟦<TcNat as Default>⟧.is_default x → x ≡ default_nat }
    ensures generic { (x : TcActionGeneric) → ⟦<TcActionGeneric as Default>⟧.is_default x → x ≡ default_nat.generic }
    ensures csum_flags { (x : TcCsumFlags) → ⟦<TcCsumFlags as Default>⟧.is_default x → x ≡ csum_flag_bits.of 0 }
    ensures ct_flags { (x : TcCtFlags) → ⟦<TcCtFlags as Default>⟧.is_default x → x ≡ ct_flag_bits.of 0 }
    ensures csum { (x : TcCsum) → ⟦<TcCsum as Default>⟧.is_default x → x ≡ record { generic = default_nat.generic; update_flags = csum_flag_bits.of 0 } }
    ensures vlan { (x : TcVlan) → ⟦<TcVlan as Default>⟧.is_default x → x ≡ record { generic = default_nat.generic; v_action = TcVlanActionType.Pop } }
    ensures gact_probability { (x : TcGactProbability) → ⟦<TcGactProbability as Default>⟧.is_default x
        → x ≡ record { ptype = 0; pval = 0; paction = TcActionType.Unspec } }
    ensures bpf_instruction { (x : TcBpfInstruction) → ⟦<TcBpfInstruction as Default>⟧.is_default x → x ≡ record { code = 0; jt = 0; jf = 0; k = 0 } }
    ensures pedit_key { (x : TcPeditKey) → ⟦<TcPeditKey as Default>⟧.is_default x
        → x ≡ record { mask = 0; val = 0; off = 0; at = 0; offmask = 0; shift = 0 } }
    ensures police { (x : TcPolice) → ⟦<TcPolice as Default>⟧.is_default x → x ≡ record {
      index = 0;
      action = TcActionType.Unspec;
      limit = 0;
      burst = 0;
      mtu = 0;
      rate = record { cell_log = 0; linklayer = 0; overhead = 0; cell_align = pos 0; mpu = 0; rate = 0 };
      peakrate = record { cell_log = 0; linklayer = 0; overhead = 0; cell_align = pos 0; mpu = 0; rate = 0 };
      refcnt = pos 0;
      bindcnt = pos 0;
      capab = 0;
    } }
{}

/// `==` answers whether two values are equal.
pub fn law_equality()
    ensures form { IsEquality ⟦<TcActionForm as PartialEq>⟧.eq }
    ensures action_type { IsEquality ⟦<TcActionType as PartialEq>⟧.eq }
    ensures mirror_action_type { IsEquality ⟦<TcMirrorActionType as PartialEq>⟧.eq }
    ensures nat_flags { IsEquality ⟦<TcNatFlags as PartialEq>⟧.eq }
    ensures generic { IsEquality ⟦<TcActionGeneric as PartialEq>⟧.eq }
    ensures times { IsEquality ⟦<Tcf as PartialEq>⟧.eq }
    ensures mirror { IsEquality ⟦<TcMirror as PartialEq>⟧.eq }
    ensures nat { IsEquality ⟦<TcNat as PartialEq>⟧.eq }
    ensures tunnel_key { IsEquality ⟦<TcTunnelKey as PartialEq>⟧.eq }
    ensures vlan_action_type { IsEquality ⟦<TcVlanActionType as PartialEq>⟧.eq }
    ensures csum_flags { IsEquality ⟦<TcCsumFlags as PartialEq>⟧.eq }
    ensures ct_flags { IsEquality ⟦<TcCtFlags as PartialEq>⟧.eq }
    ensures police { IsEquality ⟦<TcPolice as PartialEq>⟧.eq }
    ensures vlan { IsEquality ⟦<TcVlan as PartialEq>⟧.eq }
    ensures csum { IsEquality ⟦<TcCsum as PartialEq>⟧.eq }
    ensures gact_probability { IsEquality ⟦<TcGactProbability as PartialEq>⟧.eq }
    ensures pedit_header_type { IsEquality ⟦<TcPeditHeaderType as PartialEq>⟧.eq }
    ensures pedit_command { IsEquality ⟦<TcPeditCommand as PartialEq>⟧.eq }
    ensures pedit_key { IsEquality ⟦<TcPeditKey as PartialEq>⟧.eq }
    ensures bpf_instruction { IsEquality ⟦<TcBpfInstruction as PartialEq>⟧.eq }
{}

/// `==` answers whether two values mean the same, where they hold a vector.
pub fn law_equality_of_meanings()
    ensures mirror_option { IsEqualityOf mirror_family.meaning ⟦<TcActionMirrorOption as PartialEq>⟧.eq }
    ensures nat_option { IsEqualityOf nat_family.meaning ⟦<TcActionNatOption as PartialEq>⟧.eq }
    ensures enc_geneve { IsEqualityOf enc_geneve_family.meaning ⟦<TcEncGeneve as PartialEq>⟧.eq }
    ensures enc_vxlan { IsEqualityOf enc_vxlan_family.meaning ⟦<TcEncVxlan as PartialEq>⟧.eq }
    ensures enc_erspan { IsEqualityOf enc_erspan_family.meaning ⟦<TcEncErspan as PartialEq>⟧.eq }
    ensures enc_gtp { IsEqualityOf enc_gtp_family.meaning ⟦<TcEncGtp as PartialEq>⟧.eq }
    ensures enc_pfcp { IsEqualityOf enc_pfcp_family.meaning ⟦<TcEncPfcp as PartialEq>⟧.eq }
    ensures enc_option { IsEqualityOf enc_option_family.meaning ⟦<TcEncOption as PartialEq>⟧.eq }
    ensures tunnel_key_option { IsEqualityOf tunnel_key_family.meaning ⟦<TcActionTunnelKeyOption as PartialEq>⟧.eq }
    ensures gact_option { IsEqualityOf gact_option_family.meaning ⟦<TcActionGactOption as PartialEq>⟧.eq }
    ensures police_option { IsEqualityOf police_option_family.meaning ⟦<TcActionPoliceOption as PartialEq>⟧.eq }
    ensures vlan_option { IsEqualityOf vlan_option_family.meaning ⟦<TcActionVlanOption as PartialEq>⟧.eq }
    ensures skbedit_option { IsEqualityOf skbedit_option_family.meaning ⟦<TcActionSkbeditOption as PartialEq>⟧.eq }
    ensures csum_option { IsEqualityOf csum_option_family.meaning ⟦<TcActionCsumOption as PartialEq>⟧.eq }
    ensures ct_option { IsEqualityOf ct_option_family.meaning ⟦<TcActionCtOption as PartialEq>⟧.eq }
    ensures sample_option { IsEqualityOf sample_option_family.meaning ⟦<TcActionSampleOption as PartialEq>⟧.eq }
    ensures bpf_option { IsEqualityOf bpf_option_family.meaning ⟦<TcActionBpfOption as PartialEq>⟧.eq }
    ensures pedit_selector { IsEqualityOf pedit_parts ⟦<TcPeditSelector as PartialEq>⟧.eq }
    ensures pedit_key_ex { IsEqualityOf pedit_key_ex_family.meaning ⟦<TcPeditKeyEx as PartialEq>⟧.eq }
    ensures pedit_keys_ex { IsEqualityOf pedit_keys_ex_family.meaning ⟦<TcPeditKeysEx as PartialEq>⟧.eq }
    ensures pedit_option { IsEqualityOf pedit_option_family.meaning ⟦<TcActionPeditOption as PartialEq>⟧.eq }
    ensures option { IsEqualityOf action_option_of ⟦<TcActionOption as PartialEq>⟧.eq }
    ensures attribute { IsEqualityOf family.meaning ⟦<TcActionAttribute as PartialEq>⟧.eq }
    ensures action { IsEqualityOf action_family.meaning ⟦<TcAction as PartialEq>⟧.eq }
{}
