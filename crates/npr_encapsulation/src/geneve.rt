//! Options of Geneve: `LWTUNNEL_IP_OPT_GENEVE_*` of `linux/lwtunnel.h`.

ghost use Rattle.std.specs.Prelude.{false, ◌≡◌, ◌≢◌, ◌≤◌, ◌⊎◌, ◌+◌, ◌∷◌, ◌++◌, true, [], ℕ, List, Some, None, length, map, IfOk, IfErr, OnOk};
ghost use Rattle.{
  npr_base.specs.{
    Table.{shape_at, slot_plain},
    Codec.{exactly, raw},
    Lists.{checked},
    Counts.{AddsAtMost},
    Looks.{Answered},
    Framing.{Writes, number_of},
    Layout.{byte, be16},
    Refusal.{at_number},
    declared.refusal.DecodeError.TheVariants.{OutOfMemory},
  },
  npr_encapsulation.specs.{
    Geneve.{Geneve, Child, option_bytes, option_unfit, options_unfit, class_child, type_child, data_child, option_of, ReadsChild, WrongChild, AreOptions, OptionsFault, geneve_text},
    GeneveLooks.{OptionsLooks},
    GeneveSteps.{seen, listed, is_some, Changes, Stands},
  },
};

use npr_base::{
    AttributeSet, DecodeError, EmitError, Emitable, Looks, Nla, NlaBuffer, NlasIterator,
    read_bytes, read_u8, read_u16_be, total_len, write_array, write_attribute, write_bytes,
    write_hex,
};
use std::alloc::{AllocError, Global};
use std::fmt;

/// An option of Geneve. A list of them is attributes: a class opens an option, and a type or data
/// that follow it stand in that option.
#[derive(Debug, Drop, PartialEq, Eq)]
pub struct RouteGeneveOpt {
    /// `LWTUNNEL_IP_OPT_GENEVE_CLASS`: the class, big endian.
    pub class: u16,
    /// `LWTUNNEL_IP_OPT_GENEVE_TYPE`: the type.
    pub typ: u8,
    /// `LWTUNNEL_IP_OPT_GENEVE_DATA`: the data.
    pub opt_data: Vec<u8>,
}

impl RouteGeneveOpt {
    /// An option of class and type 0, with no data. It takes no memory.
    pub fn new(alloc: Global) -> Self
        ensures { option_of result ≡ record { class = 0; typ = 0; opt_data = [] } }
    {
        RouteGeneveOpt {
            class: 0,
            typ: 0,
            opt_data: Vec::new(alloc),
        }
    }

    /// An equal option.
    ///
    /// # Errors
    /// `AllocError` where memory is refused.
    pub fn try_clone(&self, alloc: Global) -> Result<Self, AllocError>
        ensures { IfOk result (λ o. option_of o ≡ option_of self.now) }
    {
        Ok(RouteGeneveOpt {
            class: self.class,
            typ: self.typ,
            opt_data: Vec::from_slice(alloc, self.opt_data.as_slice())?,
        })
    }
}

/// The family of these attributes.
const FAMILY: AttributeSet = AttributeSet::Geneve;

/// The class, which opens an option (`linux/lwtunnel.h`).
const LWTUNNEL_IP_OPT_GENEVE_CLASS: u16 = 1;

/// The type (`linux/lwtunnel.h`).
const LWTUNNEL_IP_OPT_GENEVE_TYPE: u16 = 2;

/// The data (`linux/lwtunnel.h`).
const LWTUNNEL_IP_OPT_GENEVE_DATA: u16 = 3;

/// A class closes the option that is open, and opens another.
fn read_class(
    alloc: Global,
    current: Option<RouteGeneveOpt>,
    value: &[u8],
) -> Result<(Option<RouteGeneveOpt>, RouteGeneveOpt), DecodeError>
    ensures ok { IfOk result (λ p. (n : ℕ) × (exactly be16).Reads value.now n × Changes (seen current) (class_child n) (seen p.0) (option_of p.1)) }
    ensures refused { IfErr result (λ e. (exactly be16).Wrong (at_number AttributeSet.Geneve 1) value.now e) }
{
    let class = read_u16_be(value, FAMILY.at(LWTUNNEL_IP_OPT_GENEVE_CLASS))?;
    let opened = RouteGeneveOpt {
        class,
        ..RouteGeneveOpt::new(alloc)
    };
    Ok((current, opened))
}

/// A type changes the option that is open.
fn read_type(option: RouteGeneveOpt, value: &[u8]) -> Result<RouteGeneveOpt, DecodeError>
    ensures ok { IfOk result (λ o. (n : ℕ) × (exactly byte).Reads value.now n × Changes (Some (option_of option)) (type_child n) None (option_of o)) }
    ensures refused { IfErr result (λ e. (exactly byte).Wrong (at_number AttributeSet.Geneve 2) value.now e) }
{
    let typ = read_u8(value, FAMILY.at(LWTUNNEL_IP_OPT_GENEVE_TYPE))?;
    Ok(RouteGeneveOpt { typ, ..option })
}

/// Data change the option that is open.
fn read_data(
    alloc: Global,
    option: RouteGeneveOpt,
    value: &[u8],
) -> Result<RouteGeneveOpt, DecodeError>
    ensures ok { IfOk result (λ o. Changes (Some (option_of option)) (data_child value.now) None (option_of o)) }
    ensures refused { IfErr result (λ e. e ≡ OutOfMemory) }
{
    let opt_data = read_bytes(alloc, value)?;
    Ok(RouteGeneveOpt { opt_data, ..option })
}

/// What a type or data do to the option that is open.
fn change(
    alloc: Global,
    option: RouteGeneveOpt,
    child: &NlaBuffer<'_>,
) -> Result<RouteGeneveOpt, DecodeError>
    requires { (number_of (child.now).kind ≡ 2) ⊎ (number_of (child.now).kind ≡ 3) }
    ensures ok { IfOk result (λ o. (c : Child) × ReadsChild child.now c × Changes (Some (option_of option)) c None (option_of o)) }
    ensures refused { IfErr result (λ e. e ≢ OutOfMemory → WrongChild true child.now e) }
{
    if child.kind() == LWTUNNEL_IP_OPT_GENEVE_TYPE {
        read_type(option, child.value())
    } else {
        read_data(alloc, option, child.value())
    }
}

/// The option that a child closes, and the one that is open after it.
fn read_child(
    alloc: Global,
    current: Option<RouteGeneveOpt>,
    child: &NlaBuffer<'_>,
) -> Result<(Option<RouteGeneveOpt>, RouteGeneveOpt), DecodeError>
    ensures ok { IfOk result (λ p. (c : Child) × ReadsChild child.now c × Changes (seen current) c (seen p.0) (option_of p.1)) }
    ensures refused { IfErr result (λ e. e ≢ OutOfMemory → WrongChild (is_some current) child.now e) }
{
    let kind = child.kind();
    if kind == LWTUNNEL_IP_OPT_GENEVE_CLASS {
        return read_class(alloc, current, child.value());
    }
    if kind != LWTUNNEL_IP_OPT_GENEVE_TYPE && kind != LWTUNNEL_IP_OPT_GENEVE_DATA {
        return Err(DecodeError::GeneveChild { kind });
    }
    match current {
        Some(option) => Ok((None, change(alloc, option, child)?)),
        None => Err(DecodeError::GeneveOrder { kind }),
    }
}

/// Puts an option, if there is one, behind the others.
fn close(
    options: &mut Vec<RouteGeneveOpt>,
    option: Option<RouteGeneveOpt>,
) -> Result<(), DecodeError>
    ensures ok { OnOk result (map option_of options.new.items ≡ map option_of options.old.items ++ listed (seen option)) }
    ensures refused { IfErr result (λ e. e ≡ OutOfMemory) }
{
    if let Some(option) = option {
        options.push(option)?;
    }
    Ok(())
}

/// The options that the bytes are.
///
/// # Errors
/// `OutOfMemory` where memory is refused, and else the first fault in reading order: of the walk,
/// `GeneveOrder` for a type or data before a class, `ValueLength`, and `GeneveChild` for an
/// attribute of another number.
pub(crate) fn read_options(
    alloc: Global,
    bytes: &[u8],
    looks: &mut Looks,
) -> Result<Vec<RouteGeneveOpt>, DecodeError>
    ensures ok { IfOk result (λ v. AreOptions bytes.now (map option_of v.items)) }
    ensures refused { IfErr result (λ e. e ≢ OutOfMemory → OptionsFault bytes.now e) }
    ensures exact { Answered result → OptionsLooks false bytes.now looks.old looks.new }
    ensures bounded { AddsAtMost looks.old looks.new (length bytes.now) }
{
    let mut walk = NlasIterator::new(bytes);
    let mut options = Vec::new(alloc);
    let mut current = None;
    while let Some(next) = walk.next_counted(looks) {
        let child = next?;
        let (closed, opened) = read_child(alloc, current, &child)?;
        close(&mut options, closed)?;
        current = Some(opened);
    }
    close(&mut options, current)?;
    Ok(options)
}

/// Whether a child stands where an option is open, or where none is. It takes no memory.
fn check_child(inside: bool, child: &NlaBuffer<'_>) -> Result<(), DecodeError>
    ensures ok { IfOk result (λ _. (c : Child) × ReadsChild child.now c × Stands inside c) }
    ensures refused { IfErr result (λ e. WrongChild inside child.now e) }
{
    let kind = child.kind();
    match kind {
        LWTUNNEL_IP_OPT_GENEVE_CLASS => {
            read_u16_be(child.value(), FAMILY.at(LWTUNNEL_IP_OPT_GENEVE_CLASS))?;
        }
        LWTUNNEL_IP_OPT_GENEVE_TYPE => {
            if !inside {
                return Err(DecodeError::GeneveOrder { kind });
            }
            read_u8(child.value(), FAMILY.at(LWTUNNEL_IP_OPT_GENEVE_TYPE))?;
        }
        LWTUNNEL_IP_OPT_GENEVE_DATA => {
            if !inside {
                return Err(DecodeError::GeneveOrder { kind });
            }
        }
        _ => return Err(DecodeError::GeneveChild { kind }),
    }
    Ok(())
}

/// Whether the bytes are options. It takes no memory.
///
/// # Errors
/// The first fault in reading order, as `read_options` tells it.
pub(crate) fn check_options_value(bytes: &[u8]) -> Result<(), DecodeError>
    ensures ok { IfOk result (λ _. (os : List Geneve) × AreOptions bytes.now os) }
    ensures refused { IfErr result (λ e. OptionsFault bytes.now e) }
{
    let mut walk = NlasIterator::new(bytes);
    let mut inside = false;
    while let Some(next) = walk.next() {
        let child = next?;
        check_child(inside, &child)?;
        inside = true;
    }
    Ok(())
}

/// The data of an option, to be written as an attribute.
#[derive(Drop)]
struct Data<'a>(&'a [u8]);

impl<'a> Nla for Data<'a> {
    ghost shape = { λ d. shape_at (slot_plain 3 raw d.0.now) };

    fn kind(&self) -> u16 {
        LWTUNNEL_IP_OPT_GENEVE_DATA
    }

    fn is_nested(&self) -> bool {
        false
    }

    fn check_value(&self) -> Result<usize, EmitError> {
        Ok(self.0.len())
    }

    fn write_value(&self, out: &mut [u8]) -> usize {
        write_bytes(self.0, out)
    }
}

/// The length of the encoding of an option: a class and a type of 8 bytes each, and its data.
///
/// # Errors
/// `TooLong` or `Total` where the data are too long.
fn check_option(option: &RouteGeneveOpt) -> Result<usize, EmitError>
    ensures { result ≡ checked (option_unfit (option_of option.now)) (length (option_bytes (option_of option.now ∷ []))) }
{
    Ok(16 + Data(option.opt_data.as_slice()).check()?)
}

/// Writes class, type and data of an option at the front of the slice, leaves the rest, and
/// answers their length.
fn write_option(option: &RouteGeneveOpt, out: &mut [u8]) -> usize
    requires fits { option_unfit (option_of option.now) ≡ None }
    requires room { length (option_bytes (option_of option.now ∷ [])) ≤ length out.old }
    ensures len { result ≡ length (option_bytes (option_of option.now ∷ [])) }
    ensures after { Writes out.old out.new (option_bytes (option_of option.now ∷ [])) }
{
    let [high, low] = option.class.to_be_bytes();
    let class = [6, 0, 1, 0, high, low, 0, 0];
    let typ = [5, 0, 2, 0, option.typ, 0, 0, 0];
    write_array(class, out);
    write_array(typ, &mut out[8..]);
    16 + write_attribute(&Data(option.opt_data.as_slice()), &mut out[16..])
}

/// The length of the encodings in bytes, or the first cause why there are none.
pub(crate) fn check_options(options: &[RouteGeneveOpt]) -> Result<usize, EmitError>
    ensures { result ≡ checked (options_unfit (map option_of options.now)) (length (option_bytes (map option_of options.now))) }
{
    let mut total = 0u128;
    for option in options {
        total += check_option(option)? as u128;
    }
    total_len(total)
}

/// Writes the encodings one after the other at the front of the slice, leaves the rest, and
/// answers their length.
pub(crate) fn write_options(options: &[RouteGeneveOpt], out: &mut [u8]) -> usize
    requires fits { options_unfit (map option_of options.now) ≡ None }
    requires room { length (option_bytes (map option_of options.now)) ≤ length out.old }
    ensures len { result ≡ length (option_bytes (map option_of options.now)) }
    ensures after { Writes out.old out.new (option_bytes (map option_of options.now)) }
{
    let mut at = 0usize;
    for option in options {
        at += write_option(option, &mut out[at..]);
    }
    at
}

/// Equal options, in their order.
///
/// # Errors
/// `AllocError` where memory is refused.
pub(crate) fn clone_options(
    alloc: Global,
    options: &[RouteGeneveOpt],
) -> Result<Vec<RouteGeneveOpt>, AllocError>
    ensures { IfOk result (λ v. map option_of v.items ≡ map option_of options.now) }
{
    let mut copies = Vec::new(alloc);
    for option in options {
        copies.push(option.try_clone(alloc)?)?;
    }
    Ok(copies)
}

/// The class, the type and the data in lower-case hexadecimal digits.
impl fmt::Display for RouteGeneveOpt {
    ghost output = { λ o. Some (geneve_text (option_of o)) };

    fn fmt<W: fmt::Write>(&self, f: &mut fmt::Formatter<W>) -> fmt::Result {
        write!(f, "geneve_opts {}:{}:", self.class, self.typ)?;
        write_hex(f, self.opt_data.as_slice())
    }
}
