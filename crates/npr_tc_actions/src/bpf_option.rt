//! What is said of an action that runs a program: `TCA_ACT_BPF_*` of `linux/tc_act/tc_bpf.h`.

ghost use Rattle.std.specs.Prelude.{refl};
ghost use Rattle.{npr_base.specs.Family.{shaped}, npr_tc_actions.specs.BpfOption.{family}};

use crate::bpf_instruction::TcBpfInstruction;
use crate::generic::TcActionGeneric;
use crate::tcf::Tcf;
use npr_base::{
    At, Attribute, DecodeError, DefaultNla, EmitError, Form, Looks, Nla, NlaBuffer, Place,
    blocks_len, read_blocks, write_blocks,
};
use std::alloc::{AllocError, Global};

/// An action that runs a program, by its name.
pub struct TcActionBpf {}

impl TcActionBpf {
    /// The name of its kind.
    pub const KIND: &'static str = "bpf";
}

/// What is said of an action that runs a program: `TCA_ACT_BPF_*` of `linux/tc_act/tc_bpf.h`.
#[derive(Debug, Drop, PartialEq, Eq)]
pub enum TcActionBpfOption {
    /// `TCA_ACT_BPF_TM`: when it was made and used.
    Tm(Tcf),
    /// `TCA_ACT_BPF_PARMS`: what every action has.
    Parms(TcActionGeneric),
    /// `TCA_ACT_BPF_OPS_LEN`: how many instructions a classic program has.
    OpsLen(u16),
    /// `TCA_ACT_BPF_OPS`: the instructions.
    Ops(Vec<TcBpfInstruction>),
    /// `TCA_ACT_BPF_FD`: the program, by its descriptor; in a request alone.
    Fd(u32),
    /// `TCA_ACT_BPF_NAME`: the name of the program.
    Name(String),
    /// `TCA_ACT_BPF_TAG`: the digest of the program, 8 bytes.
    Tag(Vec<u8>),
    /// `TCA_ACT_BPF_ID`: its number.
    Id(u32),
    /// An attribute of another number, as it stands.
    Other(DefaultNla),
}

/// The rows of the table.
macro_rules! rows {
    ($body:ident ($($given:tt)*)) => {
        npr_base::$body!(($($given)*) TcActionBpfOption of TcActionBpf {
            1 Tm(Tcf leading 32);
            2 Parms(TcActionGeneric leading 20);
            3 OpsLen(le16);
            5 Fd(le32);
            6 Name(name);
            8 Tag(raw);
            9 Id(le32);
        })
    };
}

impl Nla for TcActionBpfOption {
    ghost shape = { shaped family };

    fn kind(&self) -> u16 {
        rows!(kind_rows(self; TcActionBpfOption::Ops(_) => 4,))
    }

    fn is_nested(&self) -> bool {
        false
    }

    fn check_value(&self) -> Result<usize, EmitError> {
        Ok(rows!(len_rows(self; TcActionBpfOption::Ops(xs) => blocks_len(xs.as_slice()),)))
    }

    fn write_value(&self, out: &mut [u8]) -> usize {
        rows!(write_rows(self, out; TcActionBpfOption::Ops(xs) => write_blocks(xs.as_slice(), out),))
    }
}

impl Attribute for TcActionBpfOption {
    type Context = ();

    ghost family = { family };

    ghost shape_is = { λ a. refl };

    #[tactic(auto, unfolding(crate::specs::BpfOption::attributes))]
    fn read_into<P: Place<Self>>(
        place: &mut P,
        alloc: Global,
        _context: (),
        item: &NlaBuffer<'_>,
        looks: &mut Looks,
    ) -> Result<(), DecodeError> {
        rows!(put_rows(place, alloc, item, looks; 4 => {
                place.put(TcActionBpfOption::Ops(read_blocks(alloc, item.value())?));
                Ok(())
            },))
    }

    #[tactic(auto, unfolding(crate::specs::BpfOption::attributes))]
    fn form(_context: (), number: u16) -> (At, Form) {
        rows!(form_rows(number; 4 => Form::Raw,))
    }

    fn try_clone(&self, alloc: Global) -> Result<Self, AllocError> {
        rows!(clone_rows(self, alloc; TcActionBpfOption::Ops(xs) => Vec::from_slice(alloc, xs.as_slice()).map(TcActionBpfOption::Ops),))
    }
}
