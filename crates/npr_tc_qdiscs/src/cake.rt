//! The data of `cake`: `TCA_CAKE_*` of `linux/pkt_sched.h`.

ghost use Rattle.std.specs.Prelude.{◌≢◌, IfOk, IfErr};
ghost use Rattle.{
  npr_base.specs.{
    declared.refusal.DecodeError.TheVariants.{OutOfMemory},
    RowReading.{reads_at, wrong_at},
    Tables.{shape_by, shape-by},
  },
  npr_tc_qdiscs.specs.Cake.{attributes, family, table},
};

use crate::cake_ack_filter::TcCakeAckFilter;
use crate::cake_atm::TcCakeAtm;
use crate::cake_diffserv_mode::TcCakeDiffservMode;
use crate::cake_flow_mode::TcCakeFlowMode;
use npr_base::{
    At, Attribute, DecodeError, DefaultNla, EmitError, Form, Looks, Nla, NlaBuffer, Place, Rowed,
};
use std::alloc::{AllocError, Global};

/// The data of `cake`: `TCA_CAKE_*` of `linux/pkt_sched.h`.
#[derive(Debug, Drop, PartialEq, Eq)]
pub enum TcQdiscCakeOption {
    /// `TCA_CAKE_BASE_RATE64`: the rate, in bytes a second; 0 for none.
    BaseRate64(u64),
    /// `TCA_CAKE_DIFFSERV_MODE`: by which classes of service tins are told apart.
    DiffservMode(TcCakeDiffservMode),
    /// `TCA_CAKE_ATM`: in which cells the link sends.
    Atm(TcCakeAtm),
    /// `TCA_CAKE_FLOW_MODE`: by what flows are told apart.
    FlowMode(TcCakeFlowMode),
    /// `TCA_CAKE_OVERHEAD`: how many bytes the link adds to a packet.
    Overhead(i32),
    /// `TCA_CAKE_RTT`: the time to the other end and back, in microseconds.
    Rtt(u32),
    /// `TCA_CAKE_TARGET`: how long packets may wait, in microseconds.
    Target(u32),
    /// `TCA_CAKE_AUTORATE`: whether the rate follows what comes in: 1 or 0.
    Autorate(u32),
    /// `TCA_CAKE_MEMORY`: how much memory packets may take, in bytes.
    Memory(u32),
    /// `TCA_CAKE_NAT`: whether flows are told apart by the addresses behind NAT: 1 or 0.
    Nat(u32),
    /// `TCA_CAKE_RAW`: without a meaning beside its being there: the link adds nothing.
    Raw(u32),
    /// `TCA_CAKE_WASH`: whether the class of service is cleared: 1 or 0.
    Wash(u32),
    /// `TCA_CAKE_MPU`: how many bytes a packet counts at least.
    Mpu(u32),
    /// `TCA_CAKE_INGRESS`: whether packets that are dropped count too: 1 or 0.
    Ingress(u32),
    /// `TCA_CAKE_ACK_FILTER`: which acknowledgements are dropped.
    AckFilter(TcCakeAckFilter),
    /// `TCA_CAKE_SPLIT_GSO`: whether joined packets are split: 1 or 0.
    SplitGso(u32),
    /// `TCA_CAKE_FWMARK`: which bits of the mark tell the tin.
    FwMark(u32),
    /// An attribute of another number, as it stands.
    Other(DefaultNla),
}

/// The rows of the table.
macro_rules! rows {
    ($body:ident ($($given:tt)*)) => {
        npr_base::$body!(($($given)*) TcQdiscCakeOption of TcQdiscCake {
            2 BaseRate64(le64);
            3 DiffservMode(TcCakeDiffservMode as le32);
            4 Atm(TcCakeAtm as le32);
            5 FlowMode(TcCakeFlowMode as le32);
            6 Overhead(signed32);
            7 Rtt(le32);
            8 Target(le32);
            9 Autorate(le32);
            10 Memory(le32);
            11 Nat(le32);
            12 Raw(le32);
            13 Wash(le32);
            14 Mpu(le32);
            15 Ingress(le32);
            16 AckFilter(TcCakeAckFilter as le32);
            17 SplitGso(le32);
            18 FwMark(le32);
        })
    };
}

impl Nla for TcQdiscCakeOption {
    ghost shape = { shape_by table };

    fn kind(&self) -> u16 {
        rows!(kind_rows(self))
    }

    fn is_nested(&self) -> bool {
        false
    }

    fn check_value(&self) -> Result<usize, EmitError> {
        Ok(rows!(len_rows(self)))
    }

    fn write_value(&self, out: &mut [u8]) -> usize {
        rows!(write_rows(self, out))
    }
}

impl Rowed for TcQdiscCakeOption {
    ghost reads = { reads_at table };

    ghost wrong = { wrong_at table };
}

/// Puts an attribute; none has others inside.
///
/// # Errors
/// `OutOfMemory` where memory is refused, and else what is wrong with the value.
#[tactic(auto, unfolding(crate::specs::Cake::attributes))]
fn put_flat<P: Place<TcQdiscCakeOption>>(
    place: &mut P,
    alloc: Global,
    item: &NlaBuffer<'_>,
) -> Result<(), DecodeError>
    requires { P.ready place.old }
    ensures ok { IfOk result (λ _. (a : TcQdiscCakeOption) × P.puts place.old a place.new × attributes.Reads item.now (family.meaning a)) }
    ensures refused { IfErr result (λ e. e ≢ OutOfMemory → attributes.Faulty item.now e) }
{
    rows!(flat_rows(place, alloc, item))
}

impl Attribute for TcQdiscCakeOption {
    type Context = ();

    ghost family = { family };

    ghost shape_is = { shape-by table };

    #[tactic(auto, using(crate::specs::Cake::no_looks))]
    fn read_into<P: Place<Self>>(
        place: &mut P,
        alloc: Global,
        _context: (),
        item: &NlaBuffer<'_>,
        looks: &mut Looks,
    ) -> Result<(), DecodeError> {
        put_flat(place, alloc, item)
    }

    #[tactic(auto, unfolding(crate::specs::Cake::attributes))]
    fn form(_context: (), number: u16) -> (At, Form) {
        rows!(form_rows(number))
    }

    fn try_clone(&self, alloc: Global) -> Result<Self, AllocError> {
        rows!(clone_rows(self, alloc))
    }
}
