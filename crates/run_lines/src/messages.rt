ghost use Rattle.std.specs.Prelude.{◌≡◌, ◌++◌, pos, codes, IfOk, OnOk};
ghost use Rattle.seq_num.specs.Spelling.{spelling};
ghost use Rattle.mesh_notes.specs.Notes.{looks_text};
ghost use Rattle.run_lines.specs.Messages.{block_text, decimal_text, detail_of, input_line, key_text, line_text, plan_text, prn_text, refused_line, stl_text, table_text, what_text, words_line};

use cert_text::CertRead;
use decimal_lengths::Decimal;
use mesh_notes::put_looks;
use plan_text::PlanRead;
use printer_text::{Prn, key_text as spelled};
use run_files::{Cause, NamedFile};
use seq_model::What;
use seq_words::{Opt, Words};
use std::alloc::{AllocError, Global};
use stl_text::{Stl, text_of};
use text_lines::put_number;

/// The line of refused words.
pub fn words_line(why: Words) -> &'static [u8]
    ensures { result.now ≡ words_line why }
{
    match why {
        Words::Unknown => b"words: unknown command\n",
        Words::Usage => b"words: usage\n",
        Words::BadNumber(Opt::Budget) => b"words: bad number for --budget\n",
        Words::BadNumber(Opt::K) => b"words: bad number for K\n",
        Words::BadNumber(Opt::N) => b"words: bad number for N\n",
        Words::TooMany => b"words: more than 16 meshes\n",
        Words::NoMemory => b"memory\n",
    }
}

// Appends why a word is no length.
fn put_decimal(to: &mut Vec<u8>, cause: Decimal) -> Result<(), AllocError>
    ensures { OnOk result (to.new.items ≡ to.old.items ++ decimal_text cause) }
{
    match cause {
        Decimal::Empty => to.extend_from_slice(b"empty"),
        Decimal::TooLong => to.extend_from_slice(b"too long"),
        Decimal::BadByte(place) => put_number(to, b"bad byte at ", i128::from(place)),
        Decimal::NoDigit => to.extend_from_slice(b"no digit"),
        Decimal::TooFar => to.extend_from_slice(b"too far"),
    }
}

// Appends a keyword that was expected at a place.
fn put_expected(to: &mut Vec<u8>, keyword: &str, place: u64) -> Result<(), AllocError>
    ensures { OnOk result (to.new.items
        ≡ to.old.items ++ (codes "expected " ++ (keyword.now ++ (codes " at "
        ++ spelling (pos place))))) }
{
    to.extend_from_slice(b"expected ")?;
    to.extend_from_slice(keyword.as_bytes())?;
    put_number(to, b" at ", i128::from(place))
}

// Appends the place of a word that is no length, and why.
fn put_bad_number(to: &mut Vec<u8>, place: u64, cause: Decimal) -> Result<(), AllocError>
    ensures { OnOk result (to.new.items
        ≡ to.old.items ++ (codes "number at " ++ (spelling (pos place) ++ (codes ": "
        ++ decimal_text cause)))) }
{
    put_number(to, b"number at ", i128::from(place))?;
    to.extend_from_slice(b": ")?;
    put_decimal(to, cause)
}

// Appends why bytes are no mesh.
fn put_stl(to: &mut Vec<u8>, e: Stl) -> Result<(), AllocError>
    ensures { OnOk result (to.new.items ≡ to.old.items ++ stl_text e) }
{
    match e {
        Stl::Binary => to.extend_from_slice(b"binary STL"),
        Stl::Expected(keyword, place) => put_expected(to, text_of(keyword), place),
        Stl::Number(place, cause) => put_bad_number(to, place, cause),
        Stl::TooManyFacets => to.extend_from_slice(b"more than 200000 facets"),
        Stl::NoFacet => to.extend_from_slice(b"no facet"),
        Stl::NoMemory => Ok(()),
    }
}

// Appends what a line should have been.
fn put_what(to: &mut Vec<u8>, what: What) -> Result<(), AllocError>
    ensures { OnOk result (to.new.items ≡ to.old.items ++ what_text what) }
{
    match what {
        What::Header => to.extend_from_slice(b"header"),
        What::State => to.extend_from_slice(b"state"),
        What::Grid => to.extend_from_slice(b"grid"),
        What::Extent => to.extend_from_slice(b"extent"),
        What::Scale => to.extend_from_slice(b"scale"),
        What::Place => to.extend_from_slice(b"place"),
        What::Wide => to.extend_from_slice(b"wide"),
        What::Node => to.extend_from_slice(b"node"),
        What::Range => to.extend_from_slice(b"range"),
        What::After => to.extend_from_slice(b"after the end"),
    }
}

// Appends the number of a line, and what it should have been.
#[tactic(auto, unfolding(crate::specs::Messages::line_text))]
fn put_line(to: &mut Vec<u8>, words: &[u8], line: u64, what: What) -> Result<(), AllocError>
    ensures { OnOk result (to.new.items ≡ to.old.items ++ line_text words.now line what) }
{
    put_number(to, words, i128::from(line))?;
    to.extend_from_slice(b": ")?;
    put_what(to, what)
}

// Appends why bytes are no plan.
fn put_plan(to: &mut Vec<u8>, e: PlanRead) -> Result<(), AllocError>
    ensures { OnOk result (to.new.items ≡ to.old.items ++ plan_text e) }
{
    match e {
        PlanRead::Line(line, what) => put_line(to, b"plan line ", line, what),
        PlanRead::Missing => to.extend_from_slice(b"plan ends early"),
        PlanRead::Trailing => to.extend_from_slice(b"bytes after the plan"),
        PlanRead::NoMemory => Ok(()),
    }
}

// Appends the number of a line of a tree block, and what is wrong with it.
#[tactic(auto, unfolding(crate::specs::Messages::refused_line))]
fn put_refused_line(to: &mut Vec<u8>, line: u64, fault: &[u8]) -> Result<(), AllocError>
    ensures { OnOk result (to.new.items ≡ to.old.items ++ refused_line line fault.now) }
{
    put_number(to, b"tree line ", i128::from(line))?;
    to.extend_from_slice(fault)
}

// Appends why bytes are no tree block.
fn put_block(to: &mut Vec<u8>, e: CertRead) -> Result<(), AllocError>
    ensures { OnOk result (to.new.items ≡ to.old.items ++ block_text e) }
{
    match e {
        CertRead::Line(line, what) => put_line(to, b"tree line ", line, what),
        CertRead::Big(line) => put_refused_line(to, line, b": big"),
        CertRead::Deep(line) => put_refused_line(to, line, b": deep"),
        CertRead::Truncated => to.extend_from_slice(b"tree ends early"),
        CertRead::NoMemory => Ok(()),
    }
}

// Appends the table of a description: 0 is the top one, and 1 + p that of listed part p.
fn put_table(to: &mut Vec<u8>, table: u32) -> Result<(), AllocError>
    ensures { OnOk result (to.new.items ≡ to.old.items ++ table_text table) }
{
    if table == 0 {
        to.extend_from_slice(b"top")
    } else {
        put_number(to, b"part ", i128::from(table - 1))
    }
}

// Appends what is wrong with a key of a table.
#[tactic(auto, unfolding(crate::specs::Messages::key_text))]
fn put_key(to: &mut Vec<u8>, fault: &[u8], key: &str, table: u32) -> Result<(), AllocError>
    ensures { OnOk result (to.new.items ≡ to.old.items ++ key_text fault.now key.now table) }
{
    to.extend_from_slice(fault)?;
    to.extend_from_slice(key.as_bytes())?;
    to.extend_from_slice(b" in ")?;
    put_table(to, table)
}

// Appends why bytes describe no printer.
fn put_prn(to: &mut Vec<u8>, e: &Prn) -> Result<(), AllocError>
    ensures { OnOk result (to.new.items ≡ to.old.items ++ prn_text e.now) }
{
    match e {
        Prn::Toml => to.extend_from_slice(b"not TOML"),
        Prn::Missing(key, table) => put_key(to, b"missing ", spelled(*key), *table),
        Prn::Kind(key, table) => put_key(to, b"kind of ", spelled(*key), *table),
        Prn::FloatLength(key, table) => put_key(to, b"float for ", spelled(*key), *table),
        Prn::Number(key, table) => put_key(to, b"number of ", spelled(*key), *table),
        Prn::Range(key, table) => put_key(to, b"range of ", spelled(*key), *table),
        Prn::OffGrain(key, table) => put_key(to, b"off grain ", spelled(*key), *table),
        Prn::Unknown(key, table) => put_key(to, b"unknown key ", key.as_str(), *table),
        Prn::TooManyParts => to.extend_from_slice(b"more than 12 parts"),
        Prn::NoMemory => Ok(()),
    }
}

// Appends why a strict run refuses a mesh.
fn put_not_closed(to: &mut Vec<u8>, open_edges: u64, six_volume: i128) -> Result<(), AllocError>
    ensures { OnOk result (to.new.items
        ≡ to.old.items ++ (codes "not a closed outward mesh: "
        ++ looks_text open_edges six_volume)) }
{
    to.extend_from_slice(b"not a closed outward mesh: ")?;
    put_looks(to, open_edges, six_volume)
}

// The most bytes that a file may have, as its line says it.
fn too_long(file: NamedFile) -> &'static [u8]
    ensures { result.now ≡ detail_of file Cause.TooLong }
{
    match file {
        NamedFile::Printer => b"longer than 1048576 bytes",
        NamedFile::Plan => b"longer than 268435456 bytes",
        NamedFile::Mesh(_) => b"longer than 67108864 bytes",
    }
}

// Appends why a file is refused.
fn put_detail(to: &mut Vec<u8>, file: NamedFile, cause: &Cause) -> Result<(), AllocError>
    ensures { OnOk result (to.new.items ≡ to.old.items ++ detail_of file cause.now) }
{
    match cause {
        Cause::TooLong => to.extend_from_slice(too_long(file)),
        Cause::Printer(e) => put_prn(to, e),
        Cause::Plan(e) => put_plan(to, *e),
        Cause::Block(e) => put_block(to, *e),
        Cause::Stl(e) => put_stl(to, *e),
        Cause::NotClosed {
            open_edges,
            six_volume,
        } => put_not_closed(to, *open_edges, *six_volume),
        Cause::Flat => to.extend_from_slice(b"no facet is left"),
        Cause::TooTall(bands) => put_number(to, b"more than 200 bands: ", i128::from(*bands)),
    }
}

/// The line of a refused file.
pub fn input_line(
    alloc: Global,
    name: &str,
    file: NamedFile,
    cause: &Cause,
) -> Result<Vec<u8>, AllocError>
    ensures { IfOk result (λ line. line.items ≡ input_line name.now file cause.now) }
{
    let mut line = Vec::from_slice(alloc, b"input: ")?;
    line.extend_from_slice(name.as_bytes())?;
    line.extend_from_slice(b": ")?;
    put_detail(&mut line, file, cause)?;
    line.extend_from_slice(b"\n")?;
    Ok(line)
}
