//! Messages of traffic control: `struct tcmsg` and `struct tcamsg` of `linux/rtnetlink.h`.
//!
//! ```
//! use netlink_packet_route::tc::{TcAttribute, TcHandle, TcMessage};
//!
//! let bytes = [
//!     0, 0, 0, 0, 2, 0, 0, 0, 0, 0, 255, 255, 241, 255, 255, 255, 0, 0, 0, 0, // the header
//!     11, 0, 1, 0, 99, 108, 115, 97, 99, 116, 0, 0, // TCA_KIND
//! ];
//! let discipline = TcMessage::try_from(&bytes[..])?;
//! assert_eq!(discipline.header.index, 2);
//! assert_eq!(discipline.header.handle, TcHandle { major: 0xffff, minor: 0 });
//! assert_eq!(discipline.attributes, [TcAttribute::Kind("clsact".into())]);
//! assert_eq!(discipline.to_bytes()?, bytes);
//! # Ok::<(), Box<dyn std::error::Error>>(())
//! ```
//!
//! Messages of actions have a type of their own:
//!
//! ```
//! use netlink_packet_route::tc::TcActionMessageAttribute::{Actions, Flags};
//! use netlink_packet_route::tc::{TcActionAttribute, TcActionMessage};
//!
//! let bytes = [
//!     0, 0, 0, 0, // the header
//!     16, 0, 1, 0, 12, 0, 1, 0, 7, 0, 1, 0, 99, 116, 0, 0, // TCA_ACT_TAB, TCA_ACT_KIND in it
//!     12, 0, 2, 0, 1, 0, 0, 0, 1, 0, 0, 0, // TCA_ROOT_FLAGS
//! ];
//! let message = TcActionMessage::try_from(&bytes[..])?;
//! let [Actions(actions), Flags(_)] = &message.attributes[..] else {
//!     panic!("a list of actions and flags");
//! };
//! assert_eq!(actions[0].attributes, [TcActionAttribute::Kind("ct".into())]);
//! assert_eq!(message.to_bytes()?, bytes);
//! # Ok::<(), Box<dyn std::error::Error>>(())
//! ```

pub use npr_tc::TcActionMessage;
pub use npr_tc::TcActionMessageAttribute;
pub use npr_tc::TcActionMessageBuffer;
pub use npr_tc::TcActionMessageFlags;
pub use npr_tc::TcActionMessageFlagsWithSelector;
pub use npr_tc::TcActionMessageHeader;
pub use npr_tc::TcAttribute;
pub use npr_tc::TcHeader;
pub use npr_tc::TcMessage;
pub use npr_tc::TcMessageBuffer;
pub use npr_tc::TcOption;
pub use npr_tc_actions::TcAction;
pub use npr_tc_actions::TcActionAttribute;
pub use npr_tc_actions::TcActionBpf;
pub use npr_tc_actions::TcActionBpfOption;
pub use npr_tc_actions::TcActionCsum;
pub use npr_tc_actions::TcActionCsumOption;
pub use npr_tc_actions::TcActionCt;
pub use npr_tc_actions::TcActionCtOption;
pub use npr_tc_actions::TcActionForm;
pub use npr_tc_actions::TcActionGact;
pub use npr_tc_actions::TcActionGactOption;
pub use npr_tc_actions::TcActionGeneric;
pub use npr_tc_actions::TcActionGenericBuffer;
pub use npr_tc_actions::TcActionMirror;
pub use npr_tc_actions::TcActionMirrorOption;
pub use npr_tc_actions::TcActionNat;
pub use npr_tc_actions::TcActionNatOption;
pub use npr_tc_actions::TcActionOption;
pub use npr_tc_actions::TcActionPedit;
pub use npr_tc_actions::TcActionPeditOption;
pub use npr_tc_actions::TcActionPolice;
pub use npr_tc_actions::TcActionPoliceOption;
pub use npr_tc_actions::TcActionSample;
pub use npr_tc_actions::TcActionSampleOption;
pub use npr_tc_actions::TcActionSkbedit;
pub use npr_tc_actions::TcActionSkbeditOption;
pub use npr_tc_actions::TcActionTunnelKey;
pub use npr_tc_actions::TcActionTunnelKeyOption;
pub use npr_tc_actions::TcActionType;
pub use npr_tc_actions::TcActionVlan;
pub use npr_tc_actions::TcActionVlanOption;
pub use npr_tc_actions::TcBpfInstruction;
pub use npr_tc_actions::TcCsum;
pub use npr_tc_actions::TcCsumFlags;
pub use npr_tc_actions::TcCtFlags;
pub use npr_tc_actions::TcEncErspan;
pub use npr_tc_actions::TcEncGeneve;
pub use npr_tc_actions::TcEncGtp;
pub use npr_tc_actions::TcEncOption;
pub use npr_tc_actions::TcEncPfcp;
pub use npr_tc_actions::TcEncVxlan;
pub use npr_tc_actions::TcGactProbability;
pub use npr_tc_actions::TcMirror;
pub use npr_tc_actions::TcMirrorActionType;
pub use npr_tc_actions::TcMirrorBuffer;
pub use npr_tc_actions::TcNat;
pub use npr_tc_actions::TcNatBuffer;
pub use npr_tc_actions::TcNatFlags;
pub use npr_tc_actions::TcPeditCommand;
pub use npr_tc_actions::TcPeditHeaderType;
pub use npr_tc_actions::TcPeditKey;
pub use npr_tc_actions::TcPeditKeyEx;
pub use npr_tc_actions::TcPeditKeysEx;
pub use npr_tc_actions::TcPeditSelector;
pub use npr_tc_actions::TcPolice;
pub use npr_tc_actions::TcTunnelKey;
pub use npr_tc_actions::TcVlan;
pub use npr_tc_actions::TcVlanActionType;
pub use npr_tc_actions::Tcf;
pub use npr_tc_actions::TcfBuffer;
pub use npr_tc_actions::action_form_of_name;
pub use npr_tc_filters::TcBasicPcnt;
pub use npr_tc_filters::TcEmatch;
pub use npr_tc_filters::TcEmatchHeader;
pub use npr_tc_filters::TcEmatchTree;
pub use npr_tc_filters::TcEmatchTreeHeader;
pub use npr_tc_filters::TcFilterBasic;
pub use npr_tc_filters::TcFilterBasicOption;
pub use npr_tc_filters::TcFilterBpf;
pub use npr_tc_filters::TcFilterBpfOption;
pub use npr_tc_filters::TcFilterFlower;
pub use npr_tc_filters::TcFilterFlowerMplsLseOption;
pub use npr_tc_filters::TcFilterFlowerMplsOption;
pub use npr_tc_filters::TcFilterFlowerOption;
pub use npr_tc_filters::TcFilterFw;
pub use npr_tc_filters::TcFilterFwOption;
pub use npr_tc_filters::TcFilterMatchAll;
pub use npr_tc_filters::TcFilterMatchAllOption;
pub use npr_tc_filters::TcFilterU32;
pub use npr_tc_filters::TcFilterU32Option;
pub use npr_tc_filters::TcFlowerCfmOption;
pub use npr_tc_filters::TcMatchAllPcnt;
pub use npr_tc_filters::TcU32Key;
pub use npr_tc_filters::TcU32Mark;
pub use npr_tc_filters::TcU32OptionFlags;
pub use npr_tc_filters::TcU32Pcnt;
pub use npr_tc_filters::TcU32Selector;
pub use npr_tc_filters::TcU32SelectorBuffer;
pub use npr_tc_filters::TcU32SelectorFlags;
pub use npr_tc_qdiscs::TcCakeAckFilter;
pub use npr_tc_qdiscs::TcCakeAtm;
pub use npr_tc_qdiscs::TcCakeDiffservMode;
pub use npr_tc_qdiscs::TcCakeFlowMode;
pub use npr_tc_qdiscs::TcFifoQopt;
pub use npr_tc_qdiscs::TcFqWeights;
pub use npr_tc_qdiscs::TcHtbGlob;
pub use npr_tc_qdiscs::TcHtbOpt;
pub use npr_tc_qdiscs::TcMqprio;
pub use npr_tc_qdiscs::TcMqprioEntry;
pub use npr_tc_qdiscs::TcMqprioQopt;
pub use npr_tc_qdiscs::TcNetem;
pub use npr_tc_qdiscs::TcNetemCorr;
pub use npr_tc_qdiscs::TcNetemCorrupt;
pub use npr_tc_qdiscs::TcNetemGeModel;
pub use npr_tc_qdiscs::TcNetemGiModel;
pub use npr_tc_qdiscs::TcNetemLoss;
pub use npr_tc_qdiscs::TcNetemQopt;
pub use npr_tc_qdiscs::TcNetemRate;
pub use npr_tc_qdiscs::TcNetemReorder;
pub use npr_tc_qdiscs::TcNetemSlot;
pub use npr_tc_qdiscs::TcPrioQopt;
pub use npr_tc_qdiscs::TcQdiscCake;
pub use npr_tc_qdiscs::TcQdiscCakeOption;
pub use npr_tc_qdiscs::TcQdiscFq;
pub use npr_tc_qdiscs::TcQdiscFqCodel;
pub use npr_tc_qdiscs::TcQdiscFqCodelOption;
pub use npr_tc_qdiscs::TcQdiscFqOption;
pub use npr_tc_qdiscs::TcQdiscHtb;
pub use npr_tc_qdiscs::TcQdiscHtbOption;
pub use npr_tc_qdiscs::TcQdiscIngress;
pub use npr_tc_qdiscs::TcQdiscIngressOption;
pub use npr_tc_qdiscs::TcQdiscMqprio;
pub use npr_tc_qdiscs::TcQdiscMqprioOption;
pub use npr_tc_qdiscs::TcQdiscNetem;
pub use npr_tc_qdiscs::TcQdiscNetemOption;
pub use npr_tc_qdiscs::TcQdiscPrio;
pub use npr_tc_qdiscs::TcQdiscRed;
pub use npr_tc_qdiscs::TcQdiscRedOption;
pub use npr_tc_qdiscs::TcQdiscSfq;
pub use npr_tc_qdiscs::TcQdiscTbf;
pub use npr_tc_qdiscs::TcQdiscTbfOption;
pub use npr_tc_qdiscs::TcRedQopt;
pub use npr_tc_qdiscs::TcSfqQopt;
pub use npr_tc_qdiscs::TcSizeSpec;
pub use npr_tc_qdiscs::TcStab;
pub use npr_tc_qdiscs::TcStabData;
pub use npr_tc_qdiscs::TcTbfQopt;
pub use npr_tc_values::TcBitfield;
pub use npr_tc_values::TcCakeStat;
pub use npr_tc_values::TcCakeTin;
pub use npr_tc_values::TcCakeTinStat;
pub use npr_tc_values::TcEstimator;
pub use npr_tc_values::TcForm;
pub use npr_tc_values::TcFqCodelClStats;
pub use npr_tc_values::TcFqCodelQdStats;
pub use npr_tc_values::TcFqCodelXstats;
pub use npr_tc_values::TcFqQdStats;
pub use npr_tc_values::TcHandle;
pub use npr_tc_values::TcHtbXstats;
pub use npr_tc_values::TcNetemXstats;
pub use npr_tc_values::TcRateSpec;
pub use npr_tc_values::TcRedXstats;
pub use npr_tc_values::TcSfqXstats;
pub use npr_tc_values::TcStats;
pub use npr_tc_values::TcStats2;
pub use npr_tc_values::TcStatsBasic;
pub use npr_tc_values::TcStatsBasicBuffer;
pub use npr_tc_values::TcStatsBuffer;
pub use npr_tc_values::TcStatsQueue;
pub use npr_tc_values::TcStatsQueueBuffer;
pub use npr_tc_values::TcStatsRateEst;
pub use npr_tc_values::TcStatsRateEst64;
pub use npr_tc_values::TcXstats;
pub use npr_tc_values::form_of_name;
