// 01's figures of a tally: what the lowered file comes to.
#![tactic(auto)]

pub mod tally;

ghost use Rattle.std.specs.Prelude.{◌≡◌, ◌&&◌, ◌+◌, ◌*◌, ◌≤◌, eqb, leb};
ghost use Rattle.meaning.specs.Numbers.Mode;
ghost use Rattle.meaning.specs.Charges.{call_bytes, line_bytes, specifier_bytes};
ghost use Rattle.figures.specs.Tally.{block_records, part_records, for_of_records, for_of_block_records, class_records, export_records, block_scopes, part_scopes, context_symbols, block_cost, part_cost, for_of_cost, for_of_block_cost, program_cost, class_cost, export_cost};
ghost use Rattle.figures.specs.Figures.{most_part, helper_f, import_f, final_f, figured_f};

use fields::{
    BLOCK_BYTES, CALL_BYTES, CATCH_BYTES, DECLARATION_BYTES, DECLARATOR_BYTES, EXPORT_BYTES,
    LOAD_BYTES, MENTION_BYTES, MODULE_LINE_BYTES, SCOPE_BYTES, SETTINGS_BYTES, SPECIFIER_BYTES,
    STEP_BYTES, SYMBOL_BYTES, TRY_BYTES,
};
use meaning::{Reason, Refusal, mode};
use tally::Tally;

// Records, scopes and symbols of the lowered file, contexts made, and its length in bytes.
#[derive(Clone, Copy, Debug, PartialEq, Eq)]
pub struct FinalFigures {
    pub records: u64,
    pub scopes: u64,
    pub symbols: u64,
    pub contexts: u64,
    pub bytes: u64,
}

// ---- what 01 charges for each line

// The records of a context: a Block statement's, and another record's, which has a Block more around its list.
const BLOCK_RECORDS: u64 = 11;

const PART_RECORDS: u64 = 12;

// The records of a ForOf whose using goes into its body, and of one whose body gets a Block.
const FOR_OF_RECORDS: u64 = 4;

const FOR_OF_BLOCK_RECORDS: u64 = 5;

// The records of a class of Program, and of an exported one or a default export.
const CLASS_RECORDS: u64 = 3;

const EXPORT_RECORDS: u64 = 4;

// The records of the import line.
const IMPORT_RECORDS: u64 = 2;

// The scopes and symbols of a context.
const BLOCK_SCOPES: u64 = 3;

const PART_SCOPES: u64 = 4;

const CONTEXT_SYMBOLS: u64 = 2;

// The bytes of the records that are made: of a var with one name; of a context, which is a Try with the context's declaration, a Catch
// with a Step and a last Block with a Step; and of a Module line with a Specifier and a var, in place of an export.
const VAR_BYTES: usize = DECLARATION_BYTES + DECLARATOR_BYTES + MENTION_BYTES;

const CONTEXT_BYTES: usize = TRY_BYTES
    + (VAR_BYTES + LOAD_BYTES)
    + (CATCH_BYTES + MENTION_BYTES + BLOCK_BYTES + STEP_BYTES)
    + (BLOCK_BYTES + STEP_BYTES);

const NEW_EXPORT_BYTES: usize = MODULE_LINE_BYTES + SPECIFIER_BYTES + VAR_BYTES - EXPORT_BYTES;

// The bytes of scope and symbol rows.
const SCOPE: u64 = SCOPE_BYTES as u64;

const SYMBOL: u64 = SYMBOL_BYTES as u64;

// The bytes that each line adds: those of its records, its scopes and its symbols.
const BLOCK_COST: u64 = (CONTEXT_BYTES as u64) + SCOPE * BLOCK_SCOPES + SYMBOL * CONTEXT_SYMBOLS;

const PART_COST: u64 = ((CONTEXT_BYTES + BLOCK_BYTES) as u64)
    + SCOPE * PART_SCOPES
    + SYMBOL * CONTEXT_SYMBOLS;

const CALL_COST: u64 = CALL_BYTES as u64;

const FOR_OF_COST: u64 = ((VAR_BYTES + MENTION_BYTES) as u64) + SYMBOL;

const FOR_OF_BLOCK_COST: u64 = ((BLOCK_BYTES + VAR_BYTES + MENTION_BYTES) as u64) + SCOPE + SYMBOL;

const PROGRAM_COST: u64 = (BLOCK_BYTES as u64) + SCOPE;

const CLASS_COST: u64 = (VAR_BYTES as u64) + SYMBOL;

const EXPORT_COST: u64 = (NEW_EXPORT_BYTES as u64) + SYMBOL;

const LINE_COST: u64 = (MODULE_LINE_BYTES - EXPORT_BYTES) as u64;

const NAME_COST: u64 = SPECIFIER_BYTES as u64;

const IMPORT_COST: u64 = (MODULE_LINE_BYTES + SPECIFIER_BYTES) as u64;

// ---- sums over the lines; each is far below the largest number

// All contexts.
fn contexts_of(t: Tally) -> u64
    ensures value { result ≡ t.blocks + t.parts }
    ensures bound { result ≤ most_part }
{
    (t.blocks as u64) + (t.parts as u64)
}

// Records read, and those of contexts.
fn context_records(t: Tally) -> u64
    ensures value { result ≡ t.records + block_records * t.blocks + part_records * t.parts + t.wrapped }
    ensures bound { result ≤ most_part }
{
    (t.records as u64)
        + BLOCK_RECORDS * (t.blocks as u64)
        + PART_RECORDS * (t.parts as u64)
        + (t.wrapped as u64)
}

// Records of ForOfs and of Program's new Block.
fn for_of_records(t: Tally) -> u64
    ensures value { result ≡ for_of_records * t.for_ofs + for_of_block_records * t.for_of_blocks + t.programs }
    ensures bound { result ≤ most_part }
{
    FOR_OF_RECORDS * (t.for_ofs as u64)
        + FOR_OF_BLOCK_RECORDS * (t.for_of_blocks as u64)
        + (t.programs as u64)
}

// Records of Program's items.
fn item_records(t: Tally) -> u64
    ensures value { result ≡ class_records * t.classes + export_records * t.exports + t.names }
    ensures bound { result ≤ most_part }
{
    CLASS_RECORDS * (t.classes as u64) + EXPORT_RECORDS * (t.exports as u64) + (t.names as u64)
}

// Scopes of contexts, of ForOfs and of Program's new Block.
fn new_scopes(t: Tally) -> u64
    ensures value { result ≡ block_scopes * t.blocks + part_scopes * t.parts + t.for_of_blocks + t.programs }
    ensures bound { result ≤ most_part }
{
    BLOCK_SCOPES * (t.blocks as u64)
        + PART_SCOPES * (t.parts as u64)
        + (t.for_of_blocks as u64)
        + (t.programs as u64)
}

// Symbols of contexts, and of ForOfs whose using goes into the body.
fn context_symbols(t: Tally) -> u64
    ensures value { result ≡ context_symbols * t.blocks + context_symbols * t.parts + t.for_ofs }
    ensures bound { result ≤ most_part }
{
    CONTEXT_SYMBOLS * (t.blocks as u64) + CONTEXT_SYMBOLS * (t.parts as u64) + (t.for_ofs as u64)
}

// Symbols of other ForOfs, and of Program's items.
fn item_symbols(t: Tally) -> u64
    ensures value { result ≡ t.for_of_blocks + t.classes + t.exports }
    ensures bound { result ≤ most_part }
{
    (t.for_of_blocks as u64) + (t.classes as u64) + (t.exports as u64)
}

// Bytes of the records read, and of contexts.
fn context_bytes(t: Tally) -> u64
    ensures value { result ≡ t.bytes + block_cost * t.blocks + part_cost * t.parts + call_bytes * t.wrapped }
    ensures bound { result ≤ most_part }
{
    (t.bytes as u64)
        + BLOCK_COST * (t.blocks as u64)
        + PART_COST * (t.parts as u64)
        + CALL_COST * (t.wrapped as u64)
}

// Bytes of ForOfs and of Program's new Block.
fn for_of_bytes(t: Tally) -> u64
    ensures value { result ≡ for_of_cost * t.for_ofs + for_of_block_cost * t.for_of_blocks + program_cost * t.programs }
    ensures bound { result ≤ most_part }
{
    FOR_OF_COST * (t.for_ofs as u64)
        + FOR_OF_BLOCK_COST * (t.for_of_blocks as u64)
        + PROGRAM_COST * (t.programs as u64)
}

// Bytes of Program's items.
fn item_bytes(t: Tally) -> u64
    ensures value { result ≡ class_cost * t.classes + export_cost * t.exports + line_bytes * t.declarations + specifier_bytes * t.names }
    ensures bound { result ≤ most_part }
{
    CLASS_COST * (t.classes as u64)
        + EXPORT_COST * (t.exports as u64)
        + LINE_COST * (t.declarations as u64)
        + NAME_COST * (t.names as u64)
}

// 1 where the runtime helper is made.
#[tactic(auto, unfolding(crate::specs::Figures::helper_f))]
fn helper_of(mode: u16, contexts: u64) -> u64
    ensures value { result ≡ helper_f mode contexts }
    ensures bound { result ≤ 1 }
{
    u64::from(mode == mode::RUNTIME && contexts != 0)
}

// 1 where it is imported: in a module.
#[tactic(auto, unfolding(crate::specs::Figures::import_f))]
fn import_of(mode: u16, esm: u16, contexts: u64) -> u64
    ensures value { result ≡ import_f mode esm contexts }
    ensures bound { result ≤ 1 }
{
    if esm == 1 {
        helper_of(mode, contexts)
    } else {
        0
    }
}

// The figures of a file with these settings, so many rows and a tree of this tally.
fn final_figures(mode: u16, esm: u16, scopes: u16, symbols: u16, t: Tally) -> FinalFigures
    ensures { result ≡ final_f mode esm scopes symbols t }
{
    let contexts = contexts_of(t);
    let h = helper_of(mode, contexts);
    let i = import_of(mode, esm, contexts);
    let bytes = context_bytes(t) + for_of_bytes(t) + item_bytes(t);
    let records = context_records(t) + for_of_records(t) + item_records(t);
    FinalFigures {
        records: records + IMPORT_RECORDS * i,
        scopes: (scopes as u64) + new_scopes(t),
        symbols: (symbols as u64) + (context_symbols(t) + item_symbols(t)) + h,
        contexts,
        bytes: (SETTINGS_BYTES as u64)
            + SCOPE * (scopes as u64)
            + SYMBOL * (symbols as u64)
            + bytes
            + SYMBOL * h
            + IMPORT_COST * i,
    }
}

// Whether a context would need the helper, which inline mode does not have.
fn lacks_helper(mode: u16, contexts: u64) -> bool
    ensures { result ≡ (eqb mode Mode.Inline && leb 1 contexts) }
{
    mode == mode::INLINE && 1 <= contexts
}

// The figures of a file, or a refusal of inline mode with a context to make. The four numbers stay apart, as `figured_f`
// takes them: a struct of them would be a second `Layout`, to be made and taken apart at the one call.
pub fn figures_of(
    mode: u16,
    esm: u16,
    scopes: u16,
    symbols: u16,
    t: Tally,
) -> Result<FinalFigures, Refusal>
    ensures { result ≡ figured_f mode esm scopes symbols t }
{
    if lacks_helper(mode, contexts_of(t)) {
        return Err(Refusal {
            reason: Reason::InlineContext,
            place: 0,
        });
    }
    Ok(final_figures(mode, esm, scopes, symbols, t))
}
