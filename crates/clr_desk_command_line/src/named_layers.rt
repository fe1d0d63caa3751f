//! Words that name a table and the file of its layer.

ghost use Rattle.std.specs.Prelude.{◌≡◌, ◌++◌, ◌∷◌, [], true, IfOk, map, option_map};
ghost use Rattle.clap.specs.Words.{found_of, rows_of};
ghost use Rattle.clr_desk_command_line.specs.Asks.{file_in, is_layer, layers_ask, table_in, tables_and_files};

use clap::ArgMatches;
use clr_rows::Words;
use std::alloc::{AllocError, Global};

/// The tables and the files of layers.
pub(crate) type TablesAndFiles = (Vec<Words>, Vec<Words>);

/// Adds the table and the file that a word names round its first `=`. Returns false where it has none, and adds nothing then.
fn add_layer(
    alloc: Global,
    word: &str,
    tables: &mut Vec<Words>,
    files: &mut Vec<Words>,
) -> Result<bool, AllocError>
    ensures split { IfOk result (λ added. added ≡ is_layer word.now) }
    ensures table { IfOk result (λ added. added ≡ true → tables.new.items ≡ tables.old.items ++ table_in word.now ∷ []) }
    ensures file { IfOk result (λ added. added ≡ true → files.new.items ≡ files.old.items ++ file_in word.now ∷ []) }
{
    let Some((table, file)) = word.split_once('=') else {
        return Ok(false);
    };
    tables.push(Words::from_str(alloc, table)?)?;
    files.push(Words::from_str(alloc, file)?)?;
    Ok(true)
}

/// Returns the tables and the files that words name, or nothing where a word has no `=`.
fn tables_and_files(alloc: Global, words: &[&str]) -> Result<Option<TablesAndFiles>, AllocError>
    ensures { IfOk result (λ found. option_map (λ p. (p.0.items, p.1.items)) found ≡ tables_and_files (map (λ word. word.now) words.now)) }
{
    let mut tables = Vec::new(alloc);
    let mut files = Vec::new(alloc);
    for word in words {
        if !add_layer(alloc, word, &mut tables, &mut files)? {
            return Ok(None);
        }
    }
    Ok(Some((tables, files)))
}

/// Returns the tables and the files of the layers that are given, or nothing where a word has no `=`.
pub(crate) fn layers(
    alloc: Global,
    matches: &ArgMatches,
) -> Result<Option<TablesAndFiles>, AllocError>
    ensures { IfOk result (λ found. option_map (λ p. (p.0.items, p.1.items)) found ≡ layers_ask (rows_of (found_of matches.now))) }
{
    match matches.get_strs("TABLE=FILE") {
        Some(words) => tables_and_files(alloc, words),
        None => Ok(Some((Vec::new(alloc), Vec::new(alloc)))),
    }
}
