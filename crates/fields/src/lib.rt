// Fields of a tree file: the table of their lengths, the field at an offset, whether its tag may stand there, and the file reader.
#![tactic(auto)]

ghost use Rattle.std.specs.Prelude.{◌≡◌, [], ◌∷◌, ◌++◌, ◌+◌, ◌*◌, ◌≤◌, get_or, length};
ghost use Rattle.std.proofs.lemmas.List.Edits.{sets};
ghost use Rattle.meaning.specs.Numbers.Tag;
ghost use Rattle.meaning.specs.Tree.{one_of};
ghost use Rattle.meaning.specs.File.{numbers_of, head_bytes, field_bytes, two_bytes};
ghost use Rattle.meaning.specs.Grammar.{statements, expressions, allowed, two, number, field_of, field_at};
ghost use Rattle.fields.specs.Lengths.{lengths};

use meaning::{Field, Place, Reason, Refusal, tag};

// ---- sizes in bytes

// A field: its tag, then the length of its numbers and the numbers themselves.
pub const TAG_BYTES: usize = 1;

pub const NUMBER_BYTES: usize = 2;

pub const HEAD_BYTES: usize = TAG_BYTES + NUMBER_BYTES;

// Where the numbers of a field stand.
pub const NUMBER_A: usize = HEAD_BYTES;

pub const NUMBER_B: usize = NUMBER_A + NUMBER_BYTES;

pub const NUMBER_C: usize = NUMBER_B + NUMBER_BYTES;

pub const NUMBER_D: usize = NUMBER_C + NUMBER_BYTES;

pub const NUMBER_E: usize = NUMBER_D + NUMBER_BYTES;

// ---- lengths: the table

// The bytes of a field's numbers, for each tag; 0 for a tag that does not exist. Every length of a field is taken from here.
pub const LENGTHS: [u8; 43] = [
    0, // 0
    4, // 1 Program
    4, // 2 Block
    6, // 3 Plain
    4, // 4 Label
    4, // 5 Declaration
    6, // 6 Declarator
    4, // 7 For
    6, // 8 ForOf
    4, // 9 Switch
    4, // 10 Case
    4, // 11 Try
    8, // 12 Catch
    8, // 13 Function
    2, // 14 Body
    8, // 15 Class
    4, // 16 StaticBlock
    6, // 17 ModuleLine
    2, // 18 DefaultExport
    2, // 19 ExportedDeclaration
    4, // 20 Specifier
    0, // 21
    0, // 22
    0, // 23
    4, // 24 Expression
    2, // 25 Read
    2, // 26 Name
    6, // 27 Call
    4, // 28 Load
    6, // 29 Step
    0, // 30
    0, // 31
    0, // 32
    0, // 33
    0, // 34
    0, // 35
    0, // 36
    0, // 37
    0, // 38
    0, // 39
    4, // 40 Settings
    4, // 41 Scope
    10, // 42 Symbol
];

// Whole fields by their tags; an export is a DefaultExport or an ExportedDeclaration, and a mention a Read or a Name.
pub const SETTINGS_BYTES: usize = HEAD_BYTES + (LENGTHS[tag::SETTINGS as usize] as usize);

pub const SCOPE_BYTES: usize = HEAD_BYTES + (LENGTHS[tag::SCOPE as usize] as usize);

pub const SYMBOL_BYTES: usize = HEAD_BYTES + (LENGTHS[tag::SYMBOL as usize] as usize);

pub const BLOCK_BYTES: usize = HEAD_BYTES + (LENGTHS[tag::BLOCK as usize] as usize);

pub const DECLARATION_BYTES: usize = HEAD_BYTES + (LENGTHS[tag::DECLARATION as usize] as usize);

pub const DECLARATOR_BYTES: usize = HEAD_BYTES + (LENGTHS[tag::DECLARATOR as usize] as usize);

pub const TRY_BYTES: usize = HEAD_BYTES + (LENGTHS[tag::TRY as usize] as usize);

pub const CATCH_BYTES: usize = HEAD_BYTES + (LENGTHS[tag::CATCH as usize] as usize);

pub const MODULE_LINE_BYTES: usize = HEAD_BYTES + (LENGTHS[tag::MODULE_LINE as usize] as usize);

pub const EXPORT_BYTES: usize = HEAD_BYTES + (LENGTHS[tag::DEFAULT_EXPORT as usize] as usize);

pub const SPECIFIER_BYTES: usize = HEAD_BYTES + (LENGTHS[tag::SPECIFIER as usize] as usize);

pub const EXPRESSION_BYTES: usize = HEAD_BYTES + (LENGTHS[tag::EXPRESSION as usize] as usize);

pub const MENTION_BYTES: usize = HEAD_BYTES + (LENGTHS[tag::READ as usize] as usize);

pub const CALL_BYTES: usize = HEAD_BYTES + (LENGTHS[tag::CALL as usize] as usize);

pub const LOAD_BYTES: usize = HEAD_BYTES + (LENGTHS[tag::LOAD as usize] as usize);

pub const STEP_BYTES: usize = HEAD_BYTES + (LENGTHS[tag::STEP as usize] as usize);

// The largest record.
pub const MOST_RECORD_BYTES: usize = CATCH_BYTES;

// ---- bytes and fields

// The byte at an offset, or 0 behind the end: the clauses of `tag_at` and `read_two` have that 0, so no `Option` here and there. One call of
// the library, as `tables::get` is for numbers; a generic one would have the type's default in its clause, for each caller to turn into 0.
fn byte(file: &[u8], at: usize) -> u8
    ensures { result ≡ get_or file.now at 0 }
{
    file.get(at).copied().unwrap_or(0)
}

// Two bytes as a number, high byte first. One call of the library, under the clause that its two callers need.
fn join(high: u8, low: u8) -> u16
    ensures { result ≡ high * 256 + low }
{
    u16::from_be_bytes([high, low])
}

// The number at an offset of a file; a missing byte reads as 0.
pub fn read_two(file: &[u8], at: usize) -> u16
    ensures { result ≡ two file.now at }
{
    Reader::new(file, at).number()
}

// Stores a number, high byte first; what lies past the end is left out.
#[tactic(auto, unfolding(meaning::specs::File::two_bytes))]
pub fn put_two(file: &mut [u8], at: usize, n: u16)
    ensures { file.new ≡ sets file.old at (two_bytes (n ∷ [])) }
{
    let [high, low] = n.to_be_bytes();
    tables::put(file, at, high);
    tables::put(file, at.saturating_add(1), low);
}

// The tag at an offset of a file, or 0 behind the end: the clause's number (`get_or .. 0`), so no `Option`.
pub fn tag_at(file: &[u8], at: usize) -> u16
    ensures { result ≡ get_or file.now at 0 }
{
    u16::from(byte(file, at))
}

// The bytes of the numbers of a field of this tag, and 0 for a tag that does not exist: both clauses have that 0 (`entry`, `rule`), so no `Option`.
#[tactic(auto, using(crate::proofs::Lengths::lengths_right), unfolding(crate::specs::Lengths::lengths))]
pub fn length_of(tag: u16) -> u8
    ensures entry { result ≡ get_or lengths tag 0 }
    ensures rule { result ≡ 2 * numbers_of tag }
{
    LENGTHS.get(tag as usize).copied().unwrap_or(0)
}

// How many numbers a tag has.
pub fn numbers_of(tag: u16) -> u8
    ensures { result ≡ numbers_of tag }
{
    length_of(tag) / 2
}

// The bytes of a field of this tag.
#[tactic(auto, unfolding(meaning::specs::File::field_bytes))]
pub fn bytes_of(tag: u16) -> u16
    ensures { result ≡ field_bytes tag }
{
    (HEAD_BYTES as u16) + u16::from(length_of(tag))
}

// ---- which tags a place takes

// A statement.
fn is_statement(tag: u16) -> bool
    ensures { result ≡ one_of statements tag }
{
    matches!(
        tag,
        tag::BLOCK
            | tag::PLAIN
            | tag::LABEL
            | tag::FOR
            | tag::FOR_OF
            | tag::SWITCH
            | tag::TRY
            | tag::FUNCTION
            | tag::CLASS
            | tag::STEP
    )
}

// An expression.
fn is_expression(tag: u16) -> bool
    ensures { result ≡ one_of expressions tag }
{
    matches!(
        tag,
        tag::FUNCTION | tag::CLASS | tag::EXPRESSION | tag::READ | tag::CALL | tag::LOAD
    )
}

// What may stand in Program.
fn is_program_item(tag: u16) -> bool
    ensures { result ≡ one_of (Tag.Declaration ∷ Tag.ModuleLine ∷ Tag.DefaultExport ∷ Tag.ExportedDeclaration ∷ statements) tag }
{
    matches!(
        tag,
        tag::DECLARATION | tag::MODULE_LINE | tag::DEFAULT_EXPORT | tag::EXPORTED_DECLARATION
    ) || is_statement(tag)
}

// What may stand in a list of statements.
fn is_list_item(tag: u16) -> bool
    ensures { result ≡ one_of (Tag.Declaration ∷ statements) tag }
{
    tag == tag::DECLARATION || is_statement(tag)
}

// What may stand in a Plain.
fn is_plain_item(tag: u16) -> bool
    ensures { result ≡ one_of (statements ++ expressions) tag }
{
    is_statement(tag) || is_expression(tag)
}

// What may stand left in a For or a ForOf.
fn is_left(tag: u16) -> bool
    ensures { result ≡ one_of (Tag.Declaration ∷ expressions) tag }
{
    tag == tag::DECLARATION || is_expression(tag)
}

// What may stand in a Class.
fn is_class_item(tag: u16) -> bool
    ensures { result ≡ one_of (Tag.StaticBlock ∷ expressions) tag }
{
    tag == tag::STATIC_BLOCK || is_expression(tag)
}

// What an ExportedDeclaration may export.
fn is_exported(tag: u16) -> bool
    ensures { result ≡ one_of (Tag.Declaration ∷ Tag.Function ∷ Tag.Class ∷ []) tag }
{
    matches!(tag, tag::DECLARATION | tag::FUNCTION | tag::CLASS)
}

// Whether a tag may stand at a place.
#[tactic(auto, unfolding(meaning::specs::Grammar::allowed, meaning::specs::Grammar::tags_of))]
pub fn is_allowed(place: Place, tag: u16) -> bool
    ensures { result ≡ allowed place tag }
{
    match place {
        Place::Settings => tag == tag::SETTINGS,
        Place::ScopeRow => tag == tag::SCOPE,
        Place::SymbolRow => tag == tag::SYMBOL,
        Place::Program => tag == tag::PROGRAM,
        Place::ProgramItem => is_program_item(tag),
        Place::ListItem => is_list_item(tag),
        Place::Statement => is_statement(tag),
        Place::PlainItem => is_plain_item(tag),
        Place::Declarator | Place::ForOfDeclarator => tag == tag::DECLARATOR,
        Place::Name => tag == tag::NAME,
        Place::ForLeft | Place::ForOfLeft => is_left(tag),
        Place::Expression | Place::SwitchExpression | Place::DefaultExport => is_expression(tag),
        Place::Case => tag == tag::CASE,
        Place::TryPart => tag == tag::BLOCK,
        Place::Catch => tag == tag::CATCH,
        Place::Body => tag == tag::BODY,
        Place::ClassItem => is_class_item(tag),
        Place::ExportedDeclaration => is_exported(tag),
        Place::Specifier => tag == tag::SPECIFIER,
    }
}

// Number i of the whole field at an offset, or 0 where the field has no such number (`number` of the clause is 0 then). It stays beside
// `number_of`: a whole field's bytes are read without a test of the file's end.
#[tactic(auto, unfolding(meaning::specs::Grammar::number, meaning::specs::Grammar::two))]
fn read_number(file: &[u8], at: usize, count: u8, i: u8) -> u16
    requires { at + (head_bytes + 2 * count) ≤ length file.now }
    ensures { result ≡ number file.now at count i }
{
    if i < count {
        let from = at + HEAD_BYTES + NUMBER_BYTES * usize::from(i);
        join(file[from], file[from + 1])
    } else {
        0
    }
}

// The field at an offset: head cut, tag, length, payload cut.
fn field_at(file: &[u8], place: Place, at: usize) -> Result<Field, Refusal>
    ensures { result ≡ field_at file.now place at }
{
    let left = file.len().saturating_sub(at);
    if left < HEAD_BYTES {
        return Err(Refusal {
            reason: Reason::Cut,
            place: at,
        });
    }
    let tag = tag_at(file, at);
    if !is_allowed(place, tag) {
        return Err(Refusal {
            reason: Reason::WrongTag,
            place: at,
        });
    }
    let length = length_of(tag);
    if read_two(file, at + TAG_BYTES) != u16::from(length) {
        return Err(Refusal {
            reason: Reason::WrongLength,
            place: at,
        });
    }
    if left < HEAD_BYTES + (length as usize) {
        return Err(Refusal {
            reason: Reason::Cut,
            place: at,
        });
    }
    let count = length / 2;
    Ok(Field {
        tag,
        a: read_number(file, at, count, 0),
        b: read_number(file, at, count, 1),
        c: read_number(file, at, count, 2),
        d: read_number(file, at, count, 3),
        next: at + (HEAD_BYTES + (length as usize)),
    })
}

// Number i of the field at an offset that may not be whole, or 0 where a field of its tag has no such number: a field is filled up with 0.
#[tactic(auto, unfolding(meaning::specs::Grammar::number))]
fn number_of(file: &[u8], at: usize, count: u8, i: u8) -> u16
    requires { at ≤ 4294967295 }
    ensures { result ≡ number file.now at count i }
{
    if i < count {
        read_two(file, at + HEAD_BYTES + NUMBER_BYTES * usize::from(i))
    } else {
        0
    }
}

// The field at an offset, whatever stands there: nothing is checked, and a missing byte reads as 0.
pub fn field_of(file: &[u8], offset: u32) -> Field
    ensures { result ≡ field_of file.now offset }
{
    let at = offset as usize;
    let tag = tag_at(file, at);
    let length = length_of(tag);
    let count = length / 2;
    Field {
        tag,
        a: number_of(file, at, count, 0),
        b: number_of(file, at, count, 1),
        c: number_of(file, at, count, 2),
        d: number_of(file, at, count, 3),
        next: at + (HEAD_BYTES + (length as usize)),
    }
}

// ---- the file reader

// The file reader: the lent file, and an offset in it.
#[derive(Clone, Copy)]
pub struct Reader<'a> {
    pub file: &'a [u8],
    pub at: usize,
}

impl<'a> Reader<'a> {
    // A reader at an offset of a file.
    pub fn new(file: &'a [u8], at: usize) -> Reader<'a>
        ensures { (result.file ≡ file.entry) × (result.at ≡ at) }
    {
        Reader { file, at }
    }

    // The tag at the offset, or 0 behind the end, by the clause as in `tag_at`.
    pub fn tag(self) -> u16
        ensures { result ≡ get_or self.entry.file.now self.entry.at 0 }
    {
        tag_at(self.file, self.at)
    }

    // The number at the offset; a missing byte reads as 0. The second byte is asked for where there is a first, and not by `saturating_add`:
    // where the file is known to go on, the compiler then makes one load of both.
    #[tactic(auto, unfolding(meaning::specs::Grammar::two))]
    pub fn number(self) -> u16
        ensures { result ≡ two self.entry.file.now self.entry.at }
    {
        let high = byte(self.file, self.at);
        let low = if self.at < self.file.len() {
            byte(self.file, self.at + 1)
        } else {
            0
        };
        join(high, low)
    }

    // The field at the offset: head cut, tag, length, payload cut.
    pub fn field(self, place: Place) -> Result<Field, Refusal>
        ensures { result ≡ field_at self.entry.file.now place self.entry.at }
    {
        field_at(self.file, place, self.at)
    }
}

// The field at an offset of a file.
pub fn read_field(file: &[u8], place: Place, at: usize) -> Result<Field, Refusal>
    ensures { result ≡ field_at file.now place at }
{
    Reader::new(file, at).field(place)
}
