// The name calls.
ghost use Rattle.std.specs.Prelude.{[], ◌∷◌};
ghost use Rattle.definitions.specs.Names.{intern_name, lookup_name, name_of, numbered};
ghost use Rattle.names.specs.Calls.{NameListCalled};
ghost use Rattle.outputs.specs.Calls.{OutputsStay};
ghost use Rattle.outputs.specs.NameCalls.{name_unless_refused, number_if_known, name_if_known, Known, Padded};

use outputs::naming::LONGEST_NAME;

// The number of a name, which becomes known if it is not.
#[unsafe(no_mangle)]
pub extern "C" fn curvalique_intern_name(
    entries: &mut [u8],
    count: &mut usize,
    name: &[u8],
    number: &mut u64,
) -> u64
    ensures name_list_called { NameListCalled entries.old count.old (intern_name name.now)
        (name_unless_refused result (numbered number.new)) entries.new count.new }
    ensures outputs_stay { OutputsStay result (number.old ∷ []) (number.new ∷ []) }
{
    curvalique::naming::curvalique_intern_name(entries, count, name, number)
}

// The number of a name, if it is known.
#[unsafe(no_mangle)]
pub extern "C" fn curvalique_lookup_name(
    entries: &[u8],
    count: usize,
    name: &[u8],
    known: &mut u64,
    number: &mut u64,
) -> u64
    ensures name_list_called { NameListCalled entries.now count (lookup_name name.now)
        (name_unless_refused result (number_if_known known.new number.new)) entries.now count }
    ensures known { Known result known.new (number.old ∷ []) (number.new ∷ []) }
    ensures outputs_stay { OutputsStay result (known.old ∷ number.old ∷ []) (known.new ∷ number.new ∷ []) }
{
    curvalique::naming::curvalique_lookup_name(entries, count, name, known, number)
}

// The name of a number, if there is one.
#[unsafe(no_mangle)]
pub extern "C" fn curvalique_name(
    entries: &[u8],
    count: usize,
    number: u32,
    known: &mut u64,
    length: &mut usize,
    bytes: &mut [u8; LONGEST_NAME],
) -> u64
    ensures name_list_called { NameListCalled entries.now count (name_of number)
        (name_unless_refused result (name_if_known known.new length.new bytes.new)) entries.now count }
    ensures known { Known result known.new (length.old ∷ bytes.old) (length.new ∷ bytes.new) }
    ensures padded { Padded result known.new length.new bytes.new }
    ensures outputs_stay { OutputsStay result (known.old ∷ length.old ∷ bytes.old)
        (known.new ∷ length.new ∷ bytes.new) }
{
    curvalique::naming::curvalique_name(entries, count, number, known, length, bytes)
}
