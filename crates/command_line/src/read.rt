// From words to settings.
ghost use Rattle.std.specs.Char.{is_ascii_digit};
ghost use Rattle.std.specs.List.{list_all};
ghost use Rattle.std.specs.Str.Parse.{digits_value};
ghost use Rattle.std.specs.Prelude.{◌≡◌, true, ◌&&◌, not, is_none, IfOk, IfErr, Some, None, map, string_bytes, option_and_then, option_map, codes, ℕ, List};
ghost use Rattle.command_line.specs.Options.{given_in};
ghost use Rattle.command_line.specs.Meaning.{settings_of, settings_in, allowed, is_plain_task, size_in, size_by, source_in, source_by, data_in, data_by, display_in, display_by, values_of, direction_in, split_limit_in, pivot_limit_in, workers_in, limit_by, limit_of, is_numeral, limit_within, task_in, task_by, alone, checking, outputs_in, stands};
ghost use Rattle.clap.specs.Words.{all_of, first_of};
ghost use Rattle.made_problem.specs.Made.{size_of};
ghost use Rattle.command_line.specs.declared.settings.WordsFault.TheVariants.{Usage};

use crate::options::matches_on;
use crate::{DataFiles, Language, Outputs, Settings, Task, WordsFault};
use clap::ArgMatches;
use instance::{Direction, Name};
use made_problem::Size;
use std::alloc::{AllocError, Global};

/// What the words after the program's name ask for. Which words are a command is `settings_of`'s to say: `clap`'s
/// rules for a command with plain flags, options with one value, one of which may stand any number of times, and one
/// positional, and a few rules on which of them stand together.
///
/// # Errors
///
/// `Usage` where the words are no command, and `NoMemory`.
pub fn read_words(alloc: Global, words: &[String]) -> Result<Settings, WordsFault>
    ensures command { IfOk result (λ settings. settings_of (map string_bytes words.now) ≡ Some settings) }
    ensures usage { IfErr result (λ fault. fault ≡ Usage → settings_of (map string_bytes words.now) ≡ None) }
{
    let matches = matches_on(alloc, words)?;
    settings_in(alloc, &matches)
}

fn settings_in(alloc: Global, matches: &ArgMatches<'_>) -> Result<Settings, WordsFault>
    ensures some { IfOk result (λ settings. settings_in (given_in matches.now) ≡ Some settings) }
    ensures none { IfErr result (λ fault. fault ≡ Usage → settings_in (given_in matches.now) ≡ None) }
{
    let size = size_in(matches)?;
    let (language, model) = source_in(alloc, size, matches)?;
    let data_files = data_in(alloc, &language, matches)?;
    let display = display_in(alloc, &language, matches)?;
    let direction = direction_in(matches).ok_or(WordsFault::Usage)?;
    let relaxed = stands(matches, "nomip");
    let split_limit = split_limit_in(matches).ok_or(WordsFault::Usage)?;
    let pivot_limit = pivot_limit_in(matches).ok_or(WordsFault::Usage)?;
    let workers = workers_in(matches).ok_or(WordsFault::Usage)?;
    let task = task_in(alloc, matches)?;
    let settings = Settings {
        language,
        model,
        data_files,
        display,
        direction,
        relaxed,
        split_limit,
        pivot_limit,
        workers,
        task,
    };
    let settings = allowed(settings).ok_or(WordsFault::Usage)?;
    Ok(settings)
}

// Of a made problem nothing but its solution is asked for.
fn allowed(settings: Settings) -> Option<Settings>
    ensures { result ≡ allowed settings.language settings }
{
    match settings.language {
        Language::MathProg | Language::FreeMps | Language::CplexLp => Some(settings),
        Language::Made(_) => {
            if is_plain(&settings) {
                Some(settings)
            } else {
                None
            }
        }
    }
}

fn is_plain(settings: &Settings) -> bool
    ensures { result ≡ (is_none settings.now.direction && (not settings.now.relaxed && is_plain_task settings.now.task)) }
{
    settings.direction.is_none() && !settings.relaxed && is_plain_task(&settings.task)
}

// The solution is asked for alone: no file is to be written, no subset to be found, and no row to be split.
fn is_plain_task(task: &Task) -> bool
    ensures { result ≡ is_plain_task task.now }
{
    match task {
        Task::Solve(outputs) => {
            outputs.report.is_none()
                && outputs.solution.is_none()
                && outputs.certificate.is_none()
                && outputs.ranges.is_none()
                && !(outputs.subset || outputs.row_splits)
        }
        Task::Translate => false,
        Task::CheckCertificate { .. } => false,
    }
}

// How many columns a made problem has, where one is asked for.
fn size_in(matches: &ArgMatches<'_>) -> Result<Option<Size>, WordsFault>
    ensures some { IfOk result (λ size. size_in (given_in matches.now) ≡ Some size) }
    ensures none { IfErr result (λ fault. fault ≡ Usage → size_in (given_in matches.now) ≡ None) }
{
    match value_in(matches, "demo") {
        Some(word) => Ok(Some(size_of(word).ok_or(WordsFault::Usage)?)),
        None => Ok(None),
    }
}

fn size_of(word: &str) -> Option<Size>
    ensures { result ≡ option_and_then size_of (limit_of 1 2000 word.now) }
{
    Size::new(limit_of(1, 2_000, word)?)
}

// The model's language and its file.
fn source_in(
    alloc: Global,
    size: Option<Size>,
    matches: &ArgMatches<'_>,
) -> Result<(Language, Option<Name>), WordsFault>
    ensures some { IfOk result (λ source. source_in size (given_in matches.now) ≡ Some source) }
    ensures none { IfErr result (λ fault. fault ≡ Usage → source_in size (given_in matches.now) ≡ None) }
{
    let file = name_in(alloc, matches, "FILE")?;
    let model = name_in(alloc, matches, "model")?;
    let math = stands(matches, "math");
    let free_mps = stands(matches, "freemps");
    let cplex_lp = stands(matches, "lp");
    let source = source_by(math, free_mps, cplex_lp, file, model, size).ok_or(WordsFault::Usage)?;
    Ok(source)
}

fn source_by(
    math: bool,
    free_mps: bool,
    cplex_lp: bool,
    file: Option<Name>,
    model: Option<Name>,
    size: Option<Size>,
) -> Option<(Language, Option<Name>)>
    ensures { result ≡ source_by math free_mps cplex_lp file model size }
{
    match (math, free_mps, cplex_lp, file, model, size) {
        (true, false, false, Some(file), None, None) => Some((Language::MathProg, Some(file))),
        (false, true, false, Some(file), None, None) => Some((Language::FreeMps, Some(file))),
        (false, false, true, Some(file), None, None) => Some((Language::CplexLp, Some(file))),
        (false, false, false, None, Some(model), None) => Some((Language::MathProg, Some(model))),
        (false, false, false, None, None, Some(size)) => Some((Language::Made(size), None)),
        _ => None,
    }
}

// The data files, which stand with MathProg alone.
fn data_in(
    alloc: Global,
    language: &Language,
    matches: &ArgMatches<'_>,
) -> Result<DataFiles, WordsFault>
    ensures some { IfOk result (λ files. data_in language.now (given_in matches.now) ≡ Some files) }
    ensures none { IfErr result (λ fault. fault ≡ Usage → data_in language.now (given_in matches.now) ≡ None) }
{
    let files = names_in(alloc, matches, "data")?;
    let files = data_by(language, files).ok_or(WordsFault::Usage)?;
    Ok(files)
}

fn data_by(language: &Language, files: DataFiles) -> Option<DataFiles>
    ensures { result ≡ data_by language.now files }
{
    match language {
        Language::MathProg => Some(files),
        Language::FreeMps | Language::CplexLp | Language::Made(_) => {
            if files.as_slice().is_empty() {
                Some(files)
            } else {
                None
            }
        }
    }
}

// The file of what is displayed, which stands with MathProg alone.
fn display_in(
    alloc: Global,
    language: &Language,
    matches: &ArgMatches<'_>,
) -> Result<Option<Name>, WordsFault>
    ensures some { IfOk result (λ file. display_in language.now (given_in matches.now) ≡ Some file) }
    ensures none { IfErr result (λ fault. fault ≡ Usage → display_in language.now (given_in matches.now) ≡ None) }
{
    let file = name_in(alloc, matches, "display")?;
    let file = display_by(language, file).ok_or(WordsFault::Usage)?;
    Ok(file)
}

fn display_by(language: &Language, file: Option<Name>) -> Option<Option<Name>>
    ensures { result ≡ display_by language.now file }
{
    match (language, file) {
        (Language::MathProg, file) => Some(file),
        (_, None) => Some(None),
        (_, Some(_)) => None,
    }
}

fn direction_in(matches: &ArgMatches<'_>) -> Option<Option<Direction>>
    ensures { result ≡ direction_in (given_in matches.now) }
{
    match (stands(matches, "min"), stands(matches, "max")) {
        (true, true) => None,
        (true, false) => Some(Some(Direction::Min)),
        (false, true) => Some(Some(Direction::Max)),
        (false, false) => Some(None),
    }
}

fn task_in(alloc: Global, matches: &ArgMatches<'_>) -> Result<Task, WordsFault>
    ensures some { IfOk result (λ task. task_in (given_in matches.now) ≡ Some task) }
    ensures none { IfErr result (λ fault. fault ≡ Usage → task_in (given_in matches.now) ≡ None) }
{
    let outputs = outputs_in(alloc, matches)?;
    let certificate = name_in(alloc, matches, "checkcert")?;
    let task = task_by(stands(matches, "check"), certificate, outputs).ok_or(WordsFault::Usage)?;
    Ok(task)
}

fn task_by(translates: bool, certificate: Option<Name>, outputs: Outputs) -> Option<Task>
    ensures { result ≡ task_by translates certificate outputs }
{
    match (translates, certificate) {
        (false, None) => Some(Task::Solve(outputs)),
        (false, Some(file)) => checking(file, outputs),
        (true, None) => alone(outputs, Task::Translate),
        (true, Some(_)) => None,
    }
}

// The task, where no file is to be written, no subset to be found, and no search to be made.
fn alone(outputs: Outputs, task: Task) -> Option<Task>
    ensures { result ≡ alone outputs task }
{
    match (
        outputs.report,
        outputs.solution,
        outputs.certificate,
        outputs.ranges,
        outputs.subset || outputs.row_splits || outputs.cuts,
    ) {
        (None, None, None, None, false) => Some(task),
        _ => None,
    }
}

// A certificate's check, where no file is to be written but the certificate's in version 2, no subset to be found, and no
// search to be made.
fn checking(certificate: Name, outputs: Outputs) -> Option<Task>
    ensures { result ≡ checking certificate outputs }
{
    match (
        outputs.report,
        outputs.solution,
        outputs.ranges,
        outputs.subset || outputs.row_splits || outputs.cuts,
    ) {
        (None, None, None, false) => Some(Task::CheckCertificate {
            certificate,
            migrated: outputs.certificate,
        }),
        _ => None,
    }
}

fn split_limit_in(matches: &ArgMatches<'_>) -> Option<u32>
    ensures { result ≡ split_limit_in (given_in matches.now) }
{
    match value_in(matches, "nodlim") {
        Some(word) => limit_of(0, 1_000_000, word),
        None => Some(10_000),
    }
}

// What `--pivlim` says for a run of any length.
const NO_LIMIT: u32 = 0;

fn pivot_limit_in(matches: &ArgMatches<'_>) -> Option<u32>
    ensures { result ≡ pivot_limit_in (given_in matches.now) }
{
    match value_in(matches, "pivlim") {
        Some(word) => limit_of(NO_LIMIT, 1_000_000, word),
        None => Some(100_000),
    }
}

fn workers_in(matches: &ArgMatches<'_>) -> Option<u32>
    ensures { result ≡ workers_in (given_in matches.now) }
{
    match value_in(matches, "workers") {
        Some(word) => limit_of(1, 64, word),
        None => Some(1),
    }
}

// A limit in decimal digits, without sign.
fn limit_of(least: u32, greatest: u32, word: &str) -> Option<u32>
    ensures { result ≡ limit_of least greatest word.now }
{
    if is_numeral(word.as_bytes()) {
        limit_in_digits(least, greatest, word)
    } else {
        None
    }
}

// Decimal digits alone, one at least.
fn is_numeral(word: &[u8]) -> bool
    ensures { result ≡ is_numeral word.now }
{
    match word {
        [] => false,
        word => are_digits(word),
    }
}

fn are_digits(word: &[u8]) -> bool
    ensures { result ≡ list_all is_ascii_digit word.now }
{
    word.iter().all(|byte| byte.is_ascii_digit())
}

// The number of the digits, where it is a limit.
fn limit_in_digits(least: u32, greatest: u32, word: &str) -> Option<u32>
    requires { is_numeral word.now ≡ true }
    ensures { result ≡ limit_within least greatest (digits_value 10 word.now) }
{
    match word.parse::<u32>() {
        Ok(number) => limit_within(least, greatest, number),
        Err(_) => None,
    }
}

fn limit_within(least: u32, greatest: u32, number: u32) -> Option<u32>
    ensures { result ≡ limit_within least greatest number }
{
    if least <= number && number <= greatest {
        Some(number)
    } else {
        None
    }
}

fn outputs_in(alloc: Global, matches: &ArgMatches<'_>) -> Result<Outputs, AllocError>
    ensures { IfOk result (λ outputs. outputs ≡ outputs_in (given_in matches.now)) }
{
    Ok(Outputs {
        report: name_in(alloc, matches, "output")?,
        solution: name_in(alloc, matches, "write")?,
        certificate: name_in(alloc, matches, "cert")?,
        subset: stands(matches, "iis"),
        row_splits: stands(matches, "rowsplit"),
        cuts: stands(matches, "gomory"),
        ranges: name_in(alloc, matches, "ranges-exact")?,
        summary: value_in(matches, "demo").is_some(),
    })
}

/// The value of an option or of FILE, where it is given.
fn name_in(alloc: Global, matches: &ArgMatches<'_>, id: &str) -> Result<Option<Name>, AllocError>
    ensures { IfOk result (λ name. name ≡ first_of id.now (given_in matches.now)) }
{
    match value_in(matches, id) {
        Some(text) => Ok(Some(Name::new(alloc, text)?)),
        None => Ok(None),
    }
}

fn value_in<'a>(matches: &ArgMatches<'a>, id: &str) -> Option<&'a str>
    ensures { option_map (λ text. text.now) result ≡ first_of id.now (given_in matches.now) }
{
    matches.get_str(id)
}

/// The values of an option that may stand any number of times, in order.
fn names_in(alloc: Global, matches: &ArgMatches<'_>, id: &str) -> Result<DataFiles, AllocError>
    ensures { IfOk result (λ names. names ≡ values_of id.now (given_in matches.now)) }
{
    match values_in(matches, id) {
        Some(texts) => names_of(alloc, texts),
        None => Ok(DataFiles::new(alloc)),
    }
}

fn values_in<'m, 'a>(matches: &'m ArgMatches<'a>, id: &str) -> Option<&'m [&'a str]>
    ensures { option_map (λ texts. map (λ text. text.now) texts.now) result ≡ all_of id.now (given_in matches.now) }
{
    matches.get_strs(id)
}

fn names_of(alloc: Global, texts: &[&str]) -> Result<DataFiles, AllocError>
    ensures { IfOk result (λ names. names ≡ map (λ text. text.now) texts.now) }
{
    let mut names = DataFiles::new(alloc);
    for text in texts {
        names.push(Name::new(alloc, text)?)?;
    }
    Ok(names)
}

/// Whether the flag stands among the words.
fn stands(matches: &ArgMatches<'_>, flag: &str) -> bool
    ensures { result ≡ stands flag.now (given_in matches.now) }
{
    value_in(matches, flag) == Some("true")
}
