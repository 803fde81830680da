// What the words and the files give.
ghost use Rattle.std.specs.Prelude.{◌≡◌, ◌≤◌, ◌++◌, ◌∷◌, [], ℕ, List, IfOk, IfErr, OnOk, Some, map, string_bytes};
ghost use Rattle.outside.specs.Causes.{Rose};
ghost use Rattle.glpsol_cli.specs.Asked.{AreTexts, IsTextFrom, IsTextOf, sources_of, names_checked};
ghost use Rattle.glpsol_cli.specs.Stages.{AreInputs, IsStop, IsStopAt, IsStopFrom, IsStopAmong, IsUnreadStop, IsWordsStop, texts_in};
ghost use Rattle.command_line.specs.Meaning.{settings_of};

use crate::stop::{Stop, Unread};
use command_line::{Settings, Task, read_words};
use instance::Name;
use outside::{LoadFault, Store, read_all};
use sqlite_items::Boxed;
use std::alloc::{AllocError, Global};

// The settings, with the texts of the files that they name, in the order in which these are read, and behind them those of tables.
#[derive(Drop)]
pub struct Inputs {
    pub settings: Boxed<Settings>,
    pub texts: Vec<Vec<u8>>,
}

/// What the words ask for, with the texts of the files that they name.
pub fn read_inputs<S: Store>(alloc: Global, words: &[String], files: &mut S) -> Result<Inputs, Stop>
    ensures inputs { IfOk result (AreInputs (map string_bytes words.now) (S.told files.old)) }
    ensures stop { IfErr result (IsStop (map string_bytes words.now) (S.told files.old) (Rose (S.faults files.old) (S.faults files.new))) }
    ensures told { (other : List ℕ) → S.told files.new other ≡ S.told files.old other }
    ensures later { S.faults files.old ≤ S.faults files.new }
{
    let settings = match boxed_settings(alloc, words) {
        Ok(settings) => settings,
        Err(stop) => return Err(stop),
    };
    let sources = match sources_of(alloc, settings.get()) {
        Ok(sources) => sources,
        Err(_) => return Err(Stop::NoMemory),
    };
    match load_all(alloc, &sources, files) {
        Ok(texts) => Ok(Inputs { settings, texts }),
        Err(stop) => Err(stop),
    }
}

// The settings that the words ask for.
fn boxed_settings(alloc: Global, words: &[String]) -> Result<Boxed<Settings>, Stop>
    ensures settings { IfOk result (λ settings. settings_of (map string_bytes words.now) ≡ Some settings) }
    ensures stop { IfErr result (IsWordsStop (map string_bytes words.now)) }
{
    match read_words(alloc, words) {
        Ok(settings) => match Boxed::new(alloc, settings) {
            Ok(settings) => Ok(settings),
            Err(_) => Err(Stop::NoMemory),
        },
        Err(fault) => Err(Stop::Words(fault)),
    }
}

impl Inputs {
    /// With the text of one more table.
    pub fn with_table(self, text: Vec<u8>) -> Result<Inputs, AllocError>
        ensures settings { IfOk result (λ inputs. inputs.settings ≡ self.settings) }
        ensures texts { IfOk result (λ inputs. texts_in inputs ≡ texts_in self ++ text.items ∷ []) }
    {
        let Inputs {
            settings,
            mut texts,
        } = self;
        texts.push(text)?;
        Ok(Inputs { settings, texts })
    }
}

// ---- where the texts come from

// The files of the texts, in order; a made problem has none.
fn sources_of(alloc: Global, settings: &Settings) -> Result<Vec<Option<Name>>, AllocError>
    ensures { IfOk result (λ sources. sources.items ≡ sources_of settings.now) }
{
    let mut sources = Vec::new(alloc);
    sources.push(copy_of(alloc, &settings.model)?)?;
    add_names(alloc, &mut sources, settings.data_files.as_slice())?;
    add_checked(alloc, &mut sources, &settings.task)?;
    Ok(sources)
}

fn copy_of(alloc: Global, name: &Option<Name>) -> Result<Option<Name>, AllocError>
    ensures { IfOk result (λ copy. copy ≡ name.now) }
{
    match name {
        Some(name) => Ok(Some(name.copy(alloc)?)),
        None => Ok(None),
    }
}

fn add_names(
    alloc: Global,
    sources: &mut Vec<Option<Name>>,
    more: &[Name],
) -> Result<(), AllocError>
    ensures { OnOk result (sources.new.items ≡ sources.old.items ++ map Some more.now) }
{
    for name in more {
        sources.push(Some(name.copy(alloc)?))?;
    }
    Ok(())
}

// The certificate that is to be checked, where one is.
fn add_checked(
    alloc: Global,
    sources: &mut Vec<Option<Name>>,
    task: &Task,
) -> Result<(), AllocError>
    ensures { OnOk result (sources.new.items ≡ sources.old.items ++ map Some (names_checked task.now)) }
{
    if let Task::CheckCertificate { certificate, .. } = task {
        sources.push(Some(certificate.copy(alloc)?))?;
    }
    Ok(())
}

// ---- the texts

// The texts from these sources, in order.
fn load_all<S: Store>(
    alloc: Global,
    sources: &[Option<Name>],
    files: &mut S,
) -> Result<Vec<Vec<u8>>, Stop>
    ensures texts { IfOk result (λ texts. AreTexts (S.told files.old) sources.now (map (λ text. text.items) texts.items)) }
    ensures stop { IfErr result (IsStopAmong sources.now (S.told files.old) (Rose (S.faults files.old) (S.faults files.new))) }
    ensures told { (other : List ℕ) → S.told files.new other ≡ S.told files.old other }
    ensures later { S.faults files.old ≤ S.faults files.new }
{
    let mut texts = Vec::new(alloc);
    for source in sources {
        let text = match load_from(alloc, source, files) {
            Ok(text) => text,
            Err(stop) => return Err(stop),
        };
        match texts.push(text) {
            Ok(()) => {}
            Err(_) => return Err(Stop::NoMemory),
        }
    }
    Ok(texts)
}

// The text of a file, or an empty one where there is no file.
fn load_from<S: Store>(alloc: Global, source: &Option<Name>, files: &mut S) -> Result<Vec<u8>, Stop>
    ensures text { IfOk result (λ text. IsTextFrom (S.told files.old) source.now text.items) }
    ensures stop { IfErr result (IsStopFrom source.now (S.told files.old) (Rose (S.faults files.old) (S.faults files.new))) }
    ensures told { (other : List ℕ) → S.told files.new other ≡ S.told files.old other }
    ensures later { S.faults files.old ≤ S.faults files.new }
{
    match source {
        Some(name) => load(alloc, name, files),
        None => Ok(Vec::new(alloc)),
    }
}

/// The text of a file.
pub fn load<S: Store>(alloc: Global, name: &Name, files: &mut S) -> Result<Vec<u8>, Stop>
    ensures text { IfOk result (λ text. IsTextOf (S.told files.old name.now) text.items) }
    ensures stop { IfErr result (IsStopAt name.now (S.told files.old) (Rose (S.faults files.old) (S.faults files.new))) }
    ensures told { (other : List ℕ) → S.told files.new other ≡ S.told files.old other }
    ensures later { S.faults files.old ≤ S.faults files.new }
{
    match read_all(alloc, files, name.as_str()) {
        Ok(text) => Ok(text),
        Err(fault) => Err(unread(alloc, name, fault)),
    }
}

// The stop at a file that is not read; want of memory, where its name can't be copied.
fn unread(alloc: Global, name: &Name, fault: LoadFault) -> Stop
    ensures { IsUnreadStop name.now fault result }
{
    match name.copy(alloc) {
        Ok(name) => Stop::File(Unread { name, fault }),
        Err(_) => Stop::NoMemory,
    }
}
