// The words of 32 bits.
ghost use Rattle.std.specs.Prelude.{◌≡◌};
ghost use Rattle.search.specs.Search.{held_entry};
ghost use Rattle.search.specs.declared.Table.TheVariants.{Predicate};
ghost use Rattle.encoding.specs.Listing.{form_of};
ghost use Rattle.decode.specs.declared.decoded.Decoded.TheVariants.{Operation, Load};
ghost use Rattle.decode.specs.declared.decoded.SecondOperand.TheVariants.{Immediate};
ghost use Rattle.encoding.specs.Fields.{immediate};
ghost use Rattle.decode.specs.Forms.{first_key, is_access, address_predicate};
ghost use Rattle.decode.specs.Resolving.{resolved, predicate_by};
ghost use Rattle.decode.specs.Decoding.{decoded_as, sources_unmasked};

use crate::decoded::{Decoded, LoadWord, OperationWord, ResolvedOperand, SecondOperand, StoreWord};
use crate::operand::Lookup;
use encoding::fields;
use encoding::form::{Form, form_of};
use scalar::operator::Operator;
use scalar::width::Width;
use search::used_range;
use tables::ENTRIES;

// The register number of what is written, or of a store's data.
fn first_key(form: Form, word: u32) -> u8
    ensures { result ≡ first_key form word }
{
    match form {
        Form::Store(_) => fields::rs2(word),
        _ => fields::rd(word),
    }
}

// Whether rs1 is an address, whose mask counts too.
fn is_access(form: Form) -> bool
    ensures { result ≡ is_access form }
{
    matches!(form, Form::Load(_) | Form::LoadUnsigned(_) | Form::Store(_))
}

// The word of the predicate entry of rs1, where its mask counts.
fn address_predicate<'a>(form: Form, lookup: Lookup<'a>, key: u8) -> u16
    ensures { let words = lookup.entry.predicates.now in
        result ≡ address_predicate form (held_entry Predicate words lookup.entry.range key) words }
{
    if !is_access(form) {
        return 0;
    }
    lookup.predicate_by(key)
}

fn operation(
    operator: Operator,
    destination: ResolvedOperand,
    first: ResolvedOperand,
    second: SecondOperand,
) -> Decoded
    ensures { result ≡ Operation (record {
      operator = operator;
      destination = destination;
      first = first;
      second = second;
    }) }
{
    Decoded::Operation(OperationWord {
        operator,
        destination,
        first,
        second,
    })
}

// An operation whose second operand is an immediate.
fn immediate(
    operator: Operator,
    destination: ResolvedOperand,
    first: ResolvedOperand,
    value: u64,
) -> Decoded
    ensures { result ≡ Operation (record {
      operator = operator;
      destination = destination;
      first = first;
      second = Immediate value;
    }) }
{
    operation(
        operator,
        destination,
        first,
        SecondOperand::Immediate(value),
    )
}

fn load(
    destination: ResolvedOperand,
    address: ResolvedOperand,
    word: u32,
    width: Width,
    signed: bool,
) -> Decoded
    ensures { result ≡ Load (record {
      destination = destination;
      address = address;
      offset = immediate word;
      width = width;
      signed = signed;
    }) }
{
    Decoded::Load(LoadWord {
        destination,
        address,
        offset: fields::immediate(word),
        width,
        signed,
    })
}

// A word of a form. What the forms share is looked for once, before they part: compiled for each form, it would be a
// call of its own.
#[tactic(auto, unfolding(crate::specs::Decoding::decoded_as))]
fn decoded_as<'a>(
    form: Form,
    word: u32,
    cfg: u32,
    register_table: &'a [u16; ENTRIES],
    predicate_table: &'a [u16; ENTRIES],
) -> Decoded
    ensures { let operand = resolved cfg register_table.now predicate_table.now in
        result ≡ sources_unmasked (decoded_as operand word form) }
{
    let rs1 = fields::rs1(word);
    let lookup = Lookup {
        registers: register_table,
        predicates: predicate_table,
        range: used_range(cfg, register_table, predicate_table),
    };
    let address_mask = address_predicate(form, lookup, rs1);
    let key = first_key(form, word);
    let mask = lookup.predicate_by(key);
    let one = lookup.resolved_by(key, mask);
    let two = lookup.resolved_by(rs1, address_mask);
    match form {
        Form::Register(operator) => {
            let rs2 = lookup.resolved_by(fields::rs2(word), 0);
            operation(operator, one, two, SecondOperand::Register(rs2))
        }
        Form::Immediate(operator) => immediate(operator, one, two, fields::immediate(word)),
        Form::Shift(operator) => immediate(operator, one, two, fields::shift_amount(word)),
        Form::WordShift(operator) => immediate(operator, one, two, fields::word_shift_amount(word)),
        Form::Load(width) => load(one, two, word, width, true),
        Form::LoadUnsigned(width) => load(one, two, word, width, false),
        Form::Store(width) => Decoded::Store(StoreWord {
            data: one,
            address: two,
            offset: fields::store_immediate(word),
            width,
        }),
        Form::Unknown => Decoded::Unknown,
    }
}

// What a word of 32 bits is. An unknown one has no operands to look for.
pub(crate) fn uncompressed_word<'a>(
    word: u32,
    cfg: u32,
    register_table: &'a [u16; ENTRIES],
    predicate_table: &'a [u16; ENTRIES],
) -> Decoded
    ensures { let operand = resolved cfg register_table.now predicate_table.now in
        result ≡ sources_unmasked (decoded_as operand word (form_of word)) }
{
    let form = form_of(word);
    match form {
        Form::Unknown => Decoded::Unknown,
        _ => decoded_as(form, word, cfg, register_table, predicate_table),
    }
}
