//! The options of an action: `TCA_ACT_OPTIONS` of `linux/pkt_cls.h`.

ghost use Rattle.std.specs.Prelude.{◌≡◌, ◌≢◌, ◌≤◌, ◌<◌, None, length, IfOk, IfErr, IsErrOf, OnErr};
ghost use Rattle.{
  npr_base.specs.{
    declared.refusal.DecodeError.TheVariants.{OutOfMemory},
    Counts.{AddsAtMost},
    Framing.{Writes},
    Lists.{checked},
    Looks.{Answered, TakesInside},
    Refusal.{no_place},
  },
  npr_tc_actions.specs.ActionOption.{action_option, action_option_of, case, held},
};

use crate::bpf_option::TcActionBpfOption;
use crate::csum_option::TcActionCsumOption;
use crate::ct_option::TcActionCtOption;
use crate::form::TcActionForm;
use crate::gact_option::TcActionGactOption;
use crate::mirror_option::TcActionMirrorOption;
use crate::nat_option::TcActionNatOption;
use crate::pedit_option::TcActionPeditOption;
use crate::police_option::TcActionPoliceOption;
use crate::sample_option::TcActionSampleOption;
use crate::skbedit_option::TcActionSkbeditOption;
use crate::tunnel_key_option::TcActionTunnelKeyOption;
use crate::vlan_option::TcActionVlanOption;
use npr_base::{DecodeError, EmitError, Form, Looks, read_bytes, write_bytes};
use std::alloc::{AllocError, Global};

/// The options of an action: what they are follows from the first kind in the list that they stand in.
#[derive(Debug, Drop, PartialEq, Eq)]
pub enum TcActionOption {
    /// Of an action that copies packets, or sends them on.
    Mirror(Vec<TcActionMirrorOption>),
    /// Of one that changes addresses.
    Nat(Vec<TcActionNatOption>),
    /// Of one over the metadata of tunnels.
    TunnelKey(Vec<TcActionTunnelKeyOption>),
    /// Of one that lets packets through, or drops them.
    Gact(Vec<TcActionGactOption>),
    /// Of one that holds packets to a rate.
    Police(Vec<TcActionPoliceOption>),
    /// Of one over VLANs.
    Vlan(Vec<TcActionVlanOption>),
    /// Of one that changes what is kept of a packet.
    Skbedit(Vec<TcActionSkbeditOption>),
    /// Of one that makes checksums anew.
    Csum(Vec<TcActionCsumOption>),
    /// Of one over connections.
    Ct(Vec<TcActionCtOption>),
    /// Of one that samples packets.
    Sample(Vec<TcActionSampleOption>),
    /// Of one that runs a program.
    Bpf(Vec<TcActionBpfOption>),
    /// Of one that edits packets.
    Pedit(Vec<TcActionPeditOption>),
    /// The bytes of options that nothing governs, or a kind without a set.
    Other(Vec<u8>),
}

/// The variants that hold attributes.
macro_rules! variants {
    ($body:ident ($($given:tt)*)) => {
        npr_base::$body!(($($given)*) TcActionOption {
            Mirror(list TcActionMirror);
            Nat(list TcActionNat);
            TunnelKey(list TcActionTunnelKey);
            Gact(list TcActionGact);
            Police(list TcActionPolice);
            Vlan(list TcActionVlan);
            Skbedit(list TcActionSkbedit);
            Csum(list TcActionCsum);
            Ct(list TcActionCt);
            Sample(list TcActionSample);
            Bpf(list TcActionBpf);
            Pedit(list TcActionPedit);
        })
    };
}

impl TcActionOption {
    /// The options that these bytes are. Each look at a header is counted.
    ///
    /// # Errors
    /// `OutOfMemory` where memory is refused, and else the first fault in reading order.
    pub(crate) fn read(
        alloc: Global,
        form: TcActionForm,
        bytes: &[u8],
        looks: &mut Looks,
    ) -> Result<Self, DecodeError>
        ensures ok { IfOk result (λ x. (action_option form).Reads bytes.now (action_option_of x)) }
        ensures refused { IfErr result (λ e. e ≢ OutOfMemory → (action_option form).Wrong no_place bytes.now e) }
        ensures exact { Answered result → TakesInside (action_option form).members.looks bytes.now looks.old looks.new }
        // Memory is taken for a first whole attribute, and for bytes that are kept.
        ensures memory { IsErrOf result OutOfMemory → (case form).memory bytes.now }
        ensures bounded { AddsAtMost looks.old looks.new (length bytes.now) }
    {
        variants!(data_read(form, TcActionForm, alloc, bytes, looks;
            TcActionForm::Kept => Ok(TcActionOption::Other(read_bytes(alloc, bytes)?)),
        ))
    }

    /// How the options are read without memory.
    pub(crate) fn form(form: TcActionForm) -> Form
        ensures { result ≡ (action_option form).showing.form }
    {
        variants!(data_form(form, TcActionForm; TcActionForm::Kept => Form::Raw,))
    }

    /// An equal value.
    ///
    /// # Errors
    /// `AllocError` where memory is refused; where nothing stands in it none is taken.
    pub fn try_clone(&self, alloc: Global) -> Result<Self, AllocError>
        ensures ok { IfOk result (λ x. action_option_of x ≡ action_option_of self.now) }
        ensures memory { OnErr result (0 < (held (action_option_of self.now)).size) }
    {
        variants!(data_cloned(self, alloc;
            TcActionOption::Other(bytes) => read_bytes(alloc, bytes.as_slice()).map(TcActionOption::Other),
        ))
    }

    /// The length of the bytes, or the first cause inside why there are none.
    pub(crate) fn check(&self) -> Result<usize, EmitError>
        ensures { result ≡ checked (held (action_option_of self.now)).unfit (length (held (action_option_of self.now)).encoded) }
    {
        variants!(data_checked(self; TcActionOption::Other(bytes) => Ok(bytes.len()),))
    }

    /// Writes the bytes at the front of the slice, leaves the rest, and answers their length.
    pub(crate) fn write(&self, out: &mut [u8]) -> usize
        requires fits { (held (action_option_of self.now)).unfit ≡ None }
        requires room { length (held (action_option_of self.now)).encoded ≤ length out.old }
        ensures len { result ≡ length (held (action_option_of self.now)).encoded }
        ensures after { Writes out.old out.new (held (action_option_of self.now)).encoded }
    {
        variants!(data_written(self, out;
            TcActionOption::Other(bytes) => write_bytes(bytes.as_slice(), out),
        ))
    }
}
