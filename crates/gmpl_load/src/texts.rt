// What the blocks of all texts give.
ghost use Rattle.std.specs.Prelude.{◌≡◌, Ok, IfOk, IfErr};
ghost use Rattle.gmpl_blocks.specs.Rules.{Reads};
ghost use Rattle.gmpl_load.specs.Texts as spec;
ghost use Rattle.gmpl_load.specs.Texts.{Loads, LoadsFrom, IsFault, IsLocated};

use crate::objects::DataObject;
use crate::statements::{parameter_statement, set_statement};
use crate::tabbing::tabbing_statement;
use crate::tables::Tables;
use gmpl_blocks::{Cursor, DataError, DataFault, DataFaultKind, begins_symbol, is_word, word};
use gmpl_data::DataTables;
use gmpl_token::{LexFault, LexFaultKind, TokenKind, Tokens};
use model_text::Names;
use std::alloc::{AllocError, Global};

// What is given so far, and by how many blocks.
#[derive(Drop)]
pub(crate) struct Loaded {
    pub(crate) tables: Tables,
    pub(crate) blocks: usize,
}

/// The first bad block, or want of memory.
#[derive(Clone, Copy, Debug, PartialEq, Eq)]
pub enum LoadError {
    Fault(DataFault),
    NoMemory,
}

impl From<AllocError> for LoadError {
    ghost use Rattle.std.specs.Prelude.{◌≡◌};
    ghost use Rattle.gmpl_load.specs.declared.texts.LoadError.TheVariants.{NoMemory};

    ghost from_gives = { λ _ error. error ≡ NoMemory };

    fn from(_: AllocError) -> LoadError {
        LoadError::NoMemory
    }
}

/// Where texts of data come from.
#[derive(Clone, Copy, Debug, PartialEq, Eq)]
pub enum DataSource {
    /// Files, each of which may begin with `data` and a semicolon.
    Files,
    /// The section of a model, which begins behind these two.
    Section,
}

// ---- a block

// A colon, or a default behind which comes no more than its symbol, begins a block of several parameters.
#[tactic(auto, unfolding(crate::specs::Texts::begins_tabbing))]
fn begins_tabbing(tokens: &Cursor<'_, '_>) -> bool
    ensures { result ≡ spec.begins_tabbing tokens.now }
{
    tokens.sees(TokenKind::Colon)
        || (is_word("default", tokens) && begins_symbol(tokens.peek_second()))
}

#[tactic(auto, unfolding(crate::specs::Texts::parameters))]
fn parameters(
    alloc: Global,
    names: &Names<'_>,
    objects: &[DataObject],
    tables: Tables,
    tokens: &mut Cursor<'_, '_>,
) -> Result<Tables, DataError>
    ensures { Reads (spec.parameters names.now objects.now tables tokens.old) result tokens.new }
{
    if begins_tabbing(tokens) {
        tabbing_statement(alloc, names, objects, tables, tokens)
    } else {
        parameter_statement(alloc, names, objects, tables, tokens)
    }
}

#[tactic(auto, unfolding(crate::specs::Texts::parameters_or_none))]
fn parameters_or_none(
    alloc: Global,
    names: &Names<'_>,
    objects: &[DataObject],
    tables: Tables,
    tokens: &mut Cursor<'_, '_>,
) -> Result<Tables, DataError>
    ensures { Reads (spec.parameters_or_none names.now objects.now tables tokens.old) result tokens.new }
{
    if word("param", tokens) {
        parameters(alloc, names, objects, tables, tokens)
    } else {
        Err(tokens.refuse())
    }
}

#[tactic(auto, unfolding(crate::specs::Texts::block))]
fn block(
    alloc: Global,
    names: &Names<'_>,
    objects: &[DataObject],
    tables: Tables,
    tokens: &mut Cursor<'_, '_>,
) -> Result<Tables, DataError>
    ensures { Reads (spec.block names.now objects.now tables tokens.old) result tokens.new }
{
    if word("set", tokens) {
        set_statement(alloc, names, objects, tables, tokens)
    } else {
        parameters_or_none(alloc, names, objects, tables, tokens)
    }
}

// ---- blocks with their numbers and lines

// The fault of the block behind so many, whose first token stands in this line. A number of blocks that no text reaches is want
// of memory.
fn located(blocks: usize, line: usize, kind: DataFaultKind) -> LoadError
    ensures { IsLocated (spec.located blocks line kind) result }
{
    match blocks.checked_add(1) {
        Some(block) => LoadError::Fault(DataFault { block, line, kind }),
        None => LoadError::NoMemory,
    }
}

fn kind_of(kind: LexFaultKind) -> DataFaultKind
    ensures { result ≡ spec.kind_of kind }
{
    match kind {
        LexFaultKind::BadByte => DataFaultKind::BadByte,
        LexFaultKind::UnendedString => DataFaultKind::UnendedString,
        LexFaultKind::UnendedComment => DataFaultKind::UnendedComment,
        LexFaultKind::TooWide => DataFaultKind::TooWide,
    }
}

// Why a block that the text's end cuts off is none.
fn end_kind(fault: Option<LexFault>) -> DataFaultKind
    ensures { result ≡ spec.end_kind fault }
{
    match fault {
        None => DataFaultKind::Unended,
        Some(fault) => kind_of(fault.kind),
    }
}

#[tactic(auto, unfolding(crate::specs::Texts::one_block))]
fn one_block(
    alloc: Global,
    names: &Names<'_>,
    objects: &[DataObject],
    loaded: Loaded,
    tokens: &mut Cursor<'_, '_>,
) -> Result<Loaded, LoadError>
    ensures { LoadsFrom (spec.one_block names.now objects.now loaded tokens.old) result tokens.new }
{
    let before = loaded.blocks;
    let line = tokens.line(0);
    match block(alloc, names, objects, loaded.tables, tokens) {
        Ok(tables) => match before.checked_add(1) {
            Some(blocks) => Ok(Loaded { tables, blocks }),
            None => Err(LoadError::NoMemory),
        },
        Err(DataError::Fault(kind)) => Err(located(before, line, kind)),
        Err(DataError::NoMemory) => Err(LoadError::NoMemory),
    }
}

// Where no token is left: the next one may be bad.
fn ended(fault: Option<LexFault>, loaded: Loaded) -> Result<Loaded, LoadError>
    ensures { Loads (spec.ended fault loaded) result }
{
    match fault {
        None => Ok(loaded),
        Some(fault) => Err(located(loaded.blocks, fault.line, kind_of(fault.kind))),
    }
}

// Before the `end` of the data, behind which nothing is read.
#[tactic(auto, unfolding(crate::specs::Texts::closed))]
fn closed(loaded: Loaded, tokens: &mut Cursor<'_, '_>) -> Result<Loaded, LoadError>
    ensures { Loads (spec.closed loaded tokens.old) result }
{
    let line = tokens.line(0);
    tokens.take();
    match tokens.expect(TokenKind::Semicolon) {
        Ok(()) => Ok(loaded),
        Err(DataError::Fault(kind)) => Err(located(loaded.blocks, line, kind)),
        Err(DataError::NoMemory) => Err(LoadError::NoMemory),
    }
}

fn blocks(
    alloc: Global,
    names: &Names<'_>,
    objects: &[DataObject],
    fault: Option<LexFault>,
    mut loaded: Loaded,
    tokens: &mut Cursor<'_, '_>,
) -> Result<Loaded, LoadError>
    ensures { Loads (spec.blocks names.now objects.now fault loaded tokens.old) result }
{
    for _turn in 0..tokens.left() {
        if tokens.left() == 0 {
            return ended(fault, loaded);
        }
        if is_word("end", tokens) {
            return closed(loaded, tokens);
        }
        loaded = one_block(alloc, names, objects, loaded, tokens)?;
    }
    ended(fault, loaded)
}

// ---- texts

// A file may begin with `data` and a semicolon.
#[tactic(auto, unfolding(crate::specs::Texts::file_head))]
fn file_head(tokens: &mut Cursor<'_, '_>) -> Result<(), DataError>
    ensures { Reads (spec.file_head tokens.old) result tokens.new }
{
    if word("data", tokens) {
        tokens.expect(TokenKind::Semicolon)
    } else {
        Ok(())
    }
}

// What stands before the first block of a text.
#[tactic(auto, unfolding(crate::specs::Texts::head))]
fn head(source: DataSource, tokens: &mut Cursor<'_, '_>) -> Result<(), DataError>
    ensures { Reads (spec.head source tokens.old) result tokens.new }
{
    match source {
        DataSource::Files => file_head(tokens),
        DataSource::Section => Ok(()),
    }
}

// What a text gives behind those before it.
#[tactic(auto, unfolding(crate::specs::Texts::text))]
fn text(
    alloc: Global,
    names: &Names<'_>,
    objects: &[DataObject],
    source: DataSource,
    loaded: Loaded,
    found: &Tokens<'_>,
) -> Result<Loaded, LoadError>
    ensures { Loads (spec.text names.now objects.now source loaded found.now) result }
{
    let fault = found.fault();
    let mut tokens = Cursor::new(found.as_slice(), end_kind(fault));
    let line = tokens.line(0);
    match head(source, &mut tokens) {
        Ok(()) => blocks(alloc, names, objects, fault, loaded, &mut tokens),
        Err(DataError::Fault(kind)) => Err(located(loaded.blocks, line, kind)),
        Err(DataError::NoMemory) => Err(LoadError::NoMemory),
    }
}

#[tactic(auto, unfolding(crate::specs::Texts::all_data))]
fn all_data(
    alloc: Global,
    names: &Names<'_>,
    objects: &[DataObject],
    source: DataSource,
    texts: &[Tokens<'_>],
) -> Result<Loaded, LoadError>
    ensures { Loads (spec.all_data names.now objects.now source texts.now) result }
{
    let tables = Tables::new(alloc, objects.len())?;
    let mut loaded = Loaded { tables, blocks: 0 };
    for found in texts {
        loaded = text(alloc, names, objects, source, loaded, found)?;
    }
    Ok(loaded)
}

/// What data give to the objects of a model, which have these names, in the order of the texts, which come from this source.
/// `objects` tells of each name's object what data need to know. Blocks are counted from 1 over all texts.
/// Errors: `Fault` with the first bad block, its line in its text and what is wrong; `NoMemory`.
pub fn load(
    alloc: Global,
    names: &Names<'_>,
    objects: &[DataObject],
    source: DataSource,
    texts: &[Tokens<'_>],
) -> Result<DataTables, LoadError>
    ensures tables { IfOk result (λ given. spec.all_tables names.now objects.now source texts.now ≡ Ok given.objects) }
    ensures fault { IfErr result (IsFault (spec.all_tables names.now objects.now source texts.now)) }
{
    let loaded = all_data(alloc, names, objects, source, texts)?;
    Ok(loaded.tables.into_data())
}
