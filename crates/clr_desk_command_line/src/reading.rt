//! Reading the words of a command line.

ghost use Rattle.std.specs.Prelude.{◌≡◌, Some, IfOk, IfErr, List, codes, map, option_map, true};
ghost use Rattle.clap.specs.Words.{Text, first_of, found_of, rows_of, subcommand_of, takes};
ghost use Rattle.clr_command_line.specs.Asks.{IsMemory, database_of};
ghost use Rattle.clr_desk_command_line.specs.Asks.{
  ask_of,
  ask_by_name,
  ask_of_texts,
  asked_by_name,
  asked_of_office,
  certificate_ask,
  errors_of,
  members_ask,
  geographic_asked,
  is_readable,
  keep_ask,
  members_asked,
  merge_ask,
  of_layers,
  of_texts,
  or_members_asked,
  order_ask,
  or_others_asked,
  or_texts_asked,
  pictures_ask,
  reach_of,
};
ghost use Rattle.clr_desk_command_line.specs.Databases.{database_asked};
ghost use Rattle.clr_desk_subcommands.specs.Program.{program};
ghost use Rattle.clr_desk_command_line.specs.declared.asks.DeskAsk.{DeskAsk};
ghost use Rattle.clr_desk_command_line.specs.declared.asks.DeskAsk.TheVariants.{Errors, Geographic};
ghost use Rattle.clr_desk_command_line.specs.declared.asks.GeographicAsk.TheVariants.{ErrorFeatures};

use crate::asks::{Asked, DeskAsk, GeographicAsk, OrderAsk, ReachAsk};
use crate::complaints::complaint;
use crate::database_reading::database_ask;
use crate::layer_reading::geographic_ask;
use crate::values::{given_or, given_value, root};
use crate::why_reading::{AskAndFiles, why};
use clap::ArgMatches;
use clap::error::ErrorKind;
use clr_command_line::{AskFault, database, database_with, is_set, names};
use clr_desk_subcommands::whole_command;
use clr_rows::{Names, Words};
use std::alloc::{AllocError, Global};

/// The same of texts or of a stream.
type AskedAndFiles = (Asked, Vec<Words>);

/// Returns what `certificate` asks for, in the order of the names or in every order.
fn certificate_ask(is_in_order: bool, root: Words, names: Names) -> DeskAsk
    ensures { result ≡ certificate_ask is_in_order root names }
{
    if is_in_order {
        DeskAsk::InOrder(OrderAsk::Certificate, root, names)
    } else {
        DeskAsk::Certificate(root, names)
    }
}

/// Returns what `keep` asks for, in the order of the names or in every order.
fn keep_ask(is_in_order: bool, root: Words, names: Names) -> DeskAsk
    ensures { result ≡ keep_ask is_in_order root names }
{
    if is_in_order {
        DeskAsk::InOrder(OrderAsk::Keep, root, names)
    } else {
        DeskAsk::Keep(root, names)
    }
}

/// Returns what `order` asks for: an order, or its certificate.
fn order_ask(is_certificate: bool) -> OrderAsk
    ensures { result ≡ order_ask is_certificate }
{
    if is_certificate {
        OrderAsk::OrderCertificate
    } else {
        OrderAsk::Order
    }
}

/// Returns the plan of members of a root in words, as a picture or as a page, or how they all stand, if a subcommand of this name asks it.
#[tactic(auto, unfolding(crate::specs::Asks::pictures_ask))]
fn pictures_ask(name: &str, root: Words, names: Names) -> Option<DeskAsk>
    ensures { result ≡ pictures_ask name.now root names }
{
    match name {
        "words" => Some(DeskAsk::WorkOrder(root, names)),
        "map" => Some(DeskAsk::Map(root, names)),
        "report" => Some(DeskAsk::Report(root, names)),
        "board" => Some(DeskAsk::Board(root, names)),
        _ => None,
    }
}

/// Returns what is asked of members of a root, if a subcommand of this name asks it.
#[tactic(auto, unfolding(crate::specs::Asks::members_ask))]
fn members_ask(name: &str, matches: &ArgMatches, root: Words, names: Names) -> Option<DeskAsk>
    ensures { result ≡ members_ask name.now (rows_of (found_of matches.now)) root names }
{
    match name {
        "certificate" => Some(certificate_ask(is_set(matches, "in-order"), root, names)),
        "keep" => Some(keep_ask(is_set(matches, "in-order"), root, names)),
        "clashes" => Some(DeskAsk::Clashes(root, names)),
        "order" => Some(DeskAsk::InOrder(order_ask(is_set(matches, "certificate")), root, names)),
        _ => pictures_ask(name, root, names),
    }
}

/// Returns what a subcommand over members asks for, and its file, or nothing where no such subcommand has
/// the name.
fn over_members(
    alloc: Global,
    name: &str,
    matches: &ArgMatches,
) -> Result<Option<AskAndFiles>, AllocError>
    ensures { IfOk result (λ r. members_asked name.now (rows_of (found_of matches.now)) ≡ option_map (λ p. (p.0, p.1.items)) r) }
{
    let root = root(alloc, matches)?;
    let names = names(alloc, matches)?;
    match members_ask(name, matches, root, names) {
        Some(ask) => Ok(Some((ask, database(alloc, matches)?))),
        None => Ok(None),
    }
}

/// Returns what `merge` asks for, and its files.
fn merge(alloc: Global, matches: &ArgMatches) -> Result<AskAndFiles, AllocError>
    ensures { IfOk result (λ r. merge_ask (rows_of (found_of matches.now)) ≡ (r.0, r.1.items)) }
{
    let ask = DeskAsk::Merge(names(alloc, matches)?);
    Ok((ask, database_with(alloc, matches, "CERT")?))
}

/// Returns what `errors` asks for where features are asked for, and its file.
fn error_features(alloc: Global, matches: &ArgMatches) -> Result<AskAndFiles, AllocError>
    ensures { IfOk result (λ r. ◌≡◌ {A = DeskAsk × List Text} (
      Geographic (ErrorFeatures (first_of (codes "crs") (rows_of (found_of matches.now)))),
      database_of (rows_of (found_of matches.now)),
    ) (r.0, r.1.items)) }
{
    let system = given_value(alloc, matches, "crs")?;
    let files = database(alloc, matches)?;
    Ok((
        DeskAsk::Geographic(GeographicAsk::ErrorFeatures(system)),
        files,
    ))
}

/// Returns what `errors` asks for where lines are asked for, and its file.
fn error_lines(alloc: Global, matches: &ArgMatches) -> Result<AskAndFiles, AllocError>
    ensures { IfOk result (λ r. ◌≡◌ {A = DeskAsk × List Text} (Errors, database_of (rows_of (found_of matches.now))) (r.0, r.1.items)) }
{
    let files = database(alloc, matches)?;
    Ok((DeskAsk::Errors, files))
}

/// Returns what `errors` asks for, and its file: features, or lines.
fn errors(alloc: Global, matches: &ArgMatches) -> Result<AskAndFiles, AllocError>
    ensures { IfOk result (λ r. errors_of (rows_of (found_of matches.now)) ≡ (r.0, r.1.items)) }
{
    if is_set(matches, "geojson") {
        error_features(alloc, matches)
    } else {
        error_lines(alloc, matches)
    }
}

/// Returns what is asked of whole layers, or where a file is given for records that have faults, of the others.
fn of_layers(skipped: Option<Words>, ask: GeographicAsk) -> DeskAsk
    ensures { result ≡ of_layers skipped ask }
{
    match skipped {
        None => DeskAsk::Geographic(ask),
        Some(file) => DeskAsk::Skipping(ask, file),
    }
}

/// Returns what a subcommand over layers or members asks for, and its files, or nothing where no such subcommand has the name, or where its
/// layers or its first key can't be read.
fn over_layers_or_members(
    alloc: Global,
    name: &str,
    matches: &ArgMatches,
) -> Result<Option<AskAndFiles>, AllocError>
    ensures { IfOk result (λ r. or_members_asked (geographic_asked name.now (rows_of (found_of matches.now))) name.now (rows_of (found_of matches.now))
        ≡ option_map (λ p. (p.0, p.1.items)) r) }
{
    match geographic_ask(alloc, name, matches)? {
        Some((ask, files)) => {
            let skipped = given_value(alloc, matches, "skip")?;
            Ok(Some((of_layers(skipped, ask), files)))
        }
        None => over_members(alloc, name, matches),
    }
}

/// Returns what is asked of an office text alone, if a subcommand of this name asks it.
#[tactic(auto, unfolding(crate::specs::Asks::asked_of_office))]
fn asked_of_office(name: &str) -> Option<DeskAsk>
    ensures { result ≡ asked_of_office name.now }
{
    match name {
        "format" => Some(DeskAsk::Format),
        "accept" => Some(DeskAsk::Accept),
        "mended" => Some(DeskAsk::Mended),
        _ => None,
    }
}

/// Returns what a subcommand over an office text alone, over layers or over members asks for, and its files, or nothing where no such subcommand
/// has the name, or where its layers or its first key can't be read.
fn over_office_or_others(
    alloc: Global,
    name: &str,
    matches: &ArgMatches,
) -> Result<Option<AskAndFiles>, AllocError>
    ensures { IfOk result (λ r. or_others_asked (asked_of_office name.now) name.now (rows_of (found_of matches.now)) ≡ option_map (λ p. (p.0, p.1.items)) r) }
{
    match asked_of_office(name) {
        Some(ask) => Ok(Some((ask, database(alloc, matches)?))),
        None => over_layers_or_members(alloc, name, matches),
    }
}

/// Returns what a subcommand asks for of texts alone, and its files, or nothing where no such subcommand has the name, or where its layers or its
/// first key can't be read.
#[tactic(auto, unfolding(crate::specs::Asks::ask_of_texts))]
fn ask_of_texts(
    alloc: Global,
    name: &str,
    matches: &ArgMatches,
) -> Result<Option<AskAndFiles>, AllocError>
    ensures { IfOk result (λ r. ask_of_texts name.now (rows_of (found_of matches.now)) ≡ option_map (λ p. (p.0, p.1.items)) r) }
{
    match name {
        "check" => Ok(Some((DeskAsk::Check, database_with(alloc, matches, "CERT")?))),
        "merge" => Ok(Some(merge(alloc, matches)?)),
        "errors" => Ok(Some(errors(alloc, matches)?)),
        "why" => why(alloc, matches),
        _ => over_office_or_others(alloc, name, matches),
    }
}

/// Returns what a subcommand asks for, for a database or of texts alone, and its files, or nothing where no such subcommand has the name, or where one of
/// its values can't be read.
fn ask_of_subcommand(
    alloc: Global,
    name: &str,
    matches: &ArgMatches,
) -> Result<Option<AskAndFiles>, AllocError>
    ensures { IfOk result (λ r. ask_by_name name.now (rows_of (found_of matches.now)) ≡ option_map (λ p. (p.0, p.1.items)) r) }
{
    match database_ask(alloc, name, matches)? {
        Some((ask, files)) => Ok(Some((DeskAsk::Database(ask), files))),
        None => ask_of_texts(alloc, name, matches),
    }
}

/// Returns what `reach` asks for, and its file.
fn reach(alloc: Global, matches: &ArgMatches) -> Result<AskedAndFiles, AllocError>
    ensures { IfOk result (λ r. reach_of (rows_of (found_of matches.now)) ≡ (r.0, r.1.items)) }
{
    let ask = ReachAsk {
        table: given_or(alloc, matches, "TABLE", "")?,
        names: names(alloc, matches)?,
        is_for_groups: is_set(matches, "groups"),
        is_rounded: is_set(matches, "round"),
    };
    let mut files = Vec::new(alloc);
    files.push(given_or(alloc, matches, "CUT", "")?)?;
    Ok((Asked::Reach(ask), files))
}

/// Returns what a subcommand asks for of texts, and its files, or nothing where no such subcommand has the name, or where its layers or its first
/// key can't be read.
fn of_texts(
    alloc: Global,
    name: &str,
    matches: &ArgMatches,
) -> Result<Option<AskedAndFiles>, AllocError>
    ensures { IfOk result (λ r. of_texts (ask_by_name name.now (rows_of (found_of matches.now))) ≡ option_map (λ p. (p.0, p.1.items)) r) }
{
    match ask_of_subcommand(alloc, name, matches)? {
        Some((ask, files)) => Ok(Some((Asked::OfTexts(ask), files))),
        None => Ok(None),
    }
}

/// Returns what a subcommand asks for of texts or of a stream, and its files, or nothing where no subcommand has the name, or where its layers or
/// its first key can't be read.
#[tactic(auto, unfolding(crate::specs::Asks::asked_by_name))]
fn asked_of_subcommand(
    alloc: Global,
    name: &str,
    matches: &ArgMatches,
) -> Result<Option<AskedAndFiles>, AllocError>
    ensures { IfOk result (λ r. asked_by_name name.now (rows_of (found_of matches.now)) ≡ option_map (λ p. (p.0, p.1.items)) r) }
{
    match name {
        "reach" => Ok(Some(reach(alloc, matches)?)),
        _ => of_texts(alloc, name, matches),
    }
}

/// Returns the refusal of words that ask for nothing, which says which of them can't be read.
fn refusal(alloc: Global, matches: &ArgMatches) -> Result<AskFault, AllocError> {
    let mut command = whole_command(alloc)?;
    let message = complaint(alloc, matches)?;
    let error = command.error(ErrorKind::ValueValidation, message.as_str())?;
    Ok(AskFault::Refused(error))
}

/// Returns what the words of a command line ask for, with the program's name first, and the names of the files that it is asked of: that of the office text,
/// and then that of the script, the certificate or the office that was copied, and those of the layers, where there are some. The subcommands are `check DB
/// CERT`, `merge DB CERT NAME..`, `format DB`, `accept DB`, `mended DB`, `errors DB [--geojson] [--crs SYSTEM]`, `why DB [TABLE=FILE..] [--script FILE]
/// [--certificate FILE] [--round]`, `certificate`, `keep`, `clashes`, `order`, `words`, `map`, `report` and `board`, each with `DB [--under ROOT] NAME..`, of
/// which `certificate` and `keep` take `--in-order` and `order` takes `--certificate`, `geojson DB [--under ROOT] [--crs SYSTEM] NAME..`, `layer DB TABLE [--in
/// WORKSPACE]`, `office SCHEMA TABLE=FILE.. [--round] [--accept] [--skip BAD]`, `design DB NAME TABLE=FILE.. [--base COPIED] [--removes CHOICE] [--again]
/// [--script] [--keys N] [--round]`, `designs DB FOLDER [--base COPIED] [--removes CHOICE] [--keys N] [--round]`, whose designs aren't among the files,
/// `reach CUT TABLE NAME.. [--groups] [--round]`, which reads the table from a stream, `cut OFFICE TABLE=FILE.. [--round]`, and `propose OFFICE` and `edits OLD
/// NEW`, both with `[--sql DIALECT] [--crs SYSTEM] [--origin X,Y]`. There are none or more names, and one or more layers, but for `why` none or more. The root,
/// and the workspace of a layer, is LIVE where none is given; N is 1, CHOICE is `yes`, the origin is (0, 0), and `propose` is for `postgis`.
///
/// Fails with `Refused` where the words name no subcommand or another count of values than it has, where a layer has no `=`, N is no key, CHOICE is neither
/// `yes` nor `no`, both COPIED and a script are asked for, or both BAD and several layers are given; where DIALECT is neither `postgis` nor `spatialite`, or X
/// or Y is no whole number of metres of at most `MOST_ORIGIN_METRES`; or where they ask for help, as `help`, `--help` and `-h`, or for the version, as
/// `--version` and `-V`; and with `OutOfMemory` for want of memory, which may come in place of any other answer.
pub fn ask_of<'a>(alloc: Global, words: &'a [&'a str]) -> Result<(Asked, Vec<Words>), AskFault>
    ensures asks { IfOk result (λ r. ask_of (subcommand_of program (map (λ s. s.now) words.entry.now)) ≡ Some (r.0, r.1.items)) }
    ensures takes { takes program (map (λ s. s.now) words.entry.now) ≡ true
        → is_readable (subcommand_of program (map (λ s. s.now) words.entry.now)) ≡ true → IfErr result IsMemory }
{
    let command = whole_command(alloc)?;
    let matches = match command.try_get_matches_from(words) {
        Ok(matches) => matches,
        Err(error) => return Err(AskFault::of(error)),
    };
    let Some((name, values)) = matches.subcommand() else {
        unreachable!();
    };
    match asked_of_subcommand(alloc, name, values)? {
        Some(asked) => Ok(asked),
        None => Err(refusal(alloc, values)?),
    }
}
