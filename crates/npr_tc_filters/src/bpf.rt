//! The data of the filter `bpf`: `TCA_BPF_*` of `linux/pkt_cls.h`.

ghost use Rattle.{npr_base.specs.Tables.{shape_by, shape-by}, npr_tc_filters.specs.Bpf.{family, table}};

use crate::u32_option_flags::TcU32OptionFlags;
use bitflags::Flags;
use npr_base::{
    At, Attribute, DecodeError, DefaultNla, EmitError, Form, Looks, Nla, NlaBuffer, Place,
    blocks_len, read_blocks, write_blocks,
};
use npr_tc_actions::{TcAction, TcActionPoliceOption, TcBpfInstruction};
use npr_tc_values::TcHandle;
use std::alloc::{AllocError, Global};

/// The data of the filter `bpf`: `TCA_BPF_*` of `linux/pkt_cls.h`.
#[derive(Debug, Drop, PartialEq, Eq)]
pub enum TcFilterBpfOption {
    /// `TCA_BPF_ACT`: what is done with a packet that matches.
    Action(Vec<TcAction>),
    /// `TCA_BPF_POLICE`: what goes, and what becomes of the rest.
    Police(Vec<TcActionPoliceOption>),
    /// `TCA_BPF_CLASSID`: the class of a packet that matches.
    ClassId(TcHandle),
    /// `TCA_BPF_OPS_LEN`: how many instructions a classic program has.
    OpsLen(u16),
    /// `TCA_BPF_OPS`: the instructions.
    Ops(Vec<TcBpfInstruction>),
    /// `TCA_BPF_FD`: the program, by its descriptor; in a request alone.
    Fd(u32),
    /// `TCA_BPF_NAME`: the name of the program.
    Name(String),
    /// `TCA_BPF_FLAGS`: 1 (`TCA_BPF_FLAG_ACT_DIRECT`) where the program tells what becomes of a packet.
    Flags(u32),
    /// `TCA_BPF_FLAGS_GEN`: what devices do with it.
    FlagsGen(TcU32OptionFlags),
    /// `TCA_BPF_TAG`: the digest of the program, 8 bytes.
    Tag(Vec<u8>),
    /// `TCA_BPF_ID`: its number.
    Id(u32),
    /// An attribute of another number, as it stands.
    Other(DefaultNla),
}

/// The rows of the table.
macro_rules! rows {
    ($body:ident ($($given:tt)*)) => {
        npr_base::$body!(($($given)*) TcFilterBpfOption of TcFilterBpf {
            1 Action(list TcActions);
            2 Police(list TcActionPolice);
            3 ClassId(TcHandle exactly 4);
            4 OpsLen(le16);
            6 Fd(le32);
            7 Name(name);
            8 Flags(le32);
            9 FlagsGen(TcU32OptionFlags flags le32);
            10 Tag(raw);
            11 Id(le32);
        })
    };
}

impl Nla for TcFilterBpfOption {
    ghost shape = { shape_by table };

    fn kind(&self) -> u16 {
        rows!(kind_rows(self; TcFilterBpfOption::Ops(_) => 5,))
    }

    fn is_nested(&self) -> bool {
        false
    }

    fn check_value(&self) -> Result<usize, EmitError> {
        Ok(rows!(len_rows(self; TcFilterBpfOption::Ops(xs) => blocks_len(xs.as_slice()),)))
    }

    fn write_value(&self, out: &mut [u8]) -> usize {
        rows!(write_rows(self, out; TcFilterBpfOption::Ops(xs) => write_blocks(xs.as_slice(), out),))
    }
}

impl Attribute for TcFilterBpfOption {
    type Context = ();

    ghost family = { family };

    ghost shape_is = { shape-by table };

    #[tactic(auto, unfolding(crate::specs::Bpf::attributes))]
    fn read_into<P: Place<Self>>(
        place: &mut P,
        alloc: Global,
        _context: (),
        item: &NlaBuffer<'_>,
        looks: &mut Looks,
    ) -> Result<(), DecodeError> {
        rows!(put_rows(place, alloc, item, looks; 5 => {
                place.put(TcFilterBpfOption::Ops(read_blocks(alloc, item.value())?));
                Ok(())
            },))
    }

    #[tactic(auto, unfolding(crate::specs::Bpf::attributes))]
    fn form(_context: (), number: u16) -> (At, Form) {
        rows!(form_rows(number; 5 => Form::Raw,))
    }

    fn try_clone(&self, alloc: Global) -> Result<Self, AllocError> {
        rows!(clone_rows(self, alloc; TcFilterBpfOption::Ops(xs) => Vec::from_slice(alloc, xs.as_slice()).map(TcFilterBpfOption::Ops),))
    }
}
