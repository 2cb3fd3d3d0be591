ghost use Rattle.std.specs.Prelude.{◌≡◌, ◌≢◌, ◌≤ℤ◌, ◌≤◌, ◌<◌, [], pos, unsigned_abs, true, Ok, Err, IfOk, OnOk, All, map, codes, length};
ghost use Rattle.std.specs.List.{list_any};
ghost use Rattle.cert_text.specs.declared.lines.Stop.{Stop};
ghost use Rattle.std.specs.Option.{option_map};
ghost use Rattle.cert_text.specs.Lines.{room_of, are_enough, is_below, is_far, form_at, count_at, node_of, unread, formed_at, paired_at, line_at};
ghost use Rattle.cert_text.specs.Laws.Counts.{IsCount};

use crate::mults::mults_of_pairs;
use crate::numbers::numbers;
use crate::pairs::bound_line;
use owned_lists::Items;
use seq_limits::MOST_OBJECTS;
use seq_model::{Contact, Node};
use std::alloc::{AllocError, Global};
use text_lines::{has_line_end, literal};

/// Why a node line isn't read.
#[derive(Clone, Copy, Debug, PartialEq, Eq)]
pub enum Stop {
    /// It isn't ended.
    Unended,
    /// It is of no form of a node line.
    Other,
    /// A number, other than a multiplier, is above 2^32 - 1.
    Range,
    /// A multiplier is above 2^62 - 1.
    Big,
}

#[derive(Clone, Copy, Debug, PartialEq, Eq)]
pub enum LineFault {
    Stop(Stop),
    NoMemory,
}

/// The node lines of single numbers.
#[derive(Clone, Copy, Debug, PartialEq, Eq)]
pub enum Form {
    Order,
    Side,
    Cycle,
}

impl Form {
    // How many numbers such a line has at most.
    fn room(self) -> usize
        ensures { result ≡ room_of self }
    {
        match self {
            Form::Order => 2,
            Form::Side => 6,
            Form::Cycle => MOST_OBJECTS,
        }
    }

    // Whether these are as many as it must have; a side has a child at least.
    fn are_enough(self, numbers: &[i128]) -> bool
        ensures { result ≡ are_enough self numbers.now }
    {
        match self {
            Form::Order => numbers.len() == 2,
            Form::Side => numbers.len() == 6 && numbers[5] > 0,
            Form::Cycle => !numbers.is_empty(),
        }
    }
}

fn any_below(numbers: &[i128]) -> bool
    ensures { result ≡ list_any is_below numbers.now }
{
    for n in numbers {
        if *n < 0 {
            return true;
        }
    }
    false
}

pub(crate) fn any_far(numbers: &[i128]) -> bool
    ensures { result ≡ list_any is_far numbers.now }
{
    for n in numbers {
        if *n > 4_294_967_295 {
            return true;
        }
    }
    false
}

// The numbers of a line of this form, behind its keyword, and the bytes after that line.
#[tactic(auto, unfolding(crate::specs::Lines::form_at))]
fn form_line<'a>(
    found: &mut Vec<i128>,
    form: Form,
    bytes: &'a [u8],
) -> Result<Option<&'a [u8]>, AllocError>
    requires { found.old.items ≡ [] }
    ensures { IfOk result
        (λ r. option_map (λ rest. (found.new.items, rest.now)) r ≡ form_at form bytes.now) }
{
    let Some(rest) = numbers(found, b" ", form.room(), bytes)? else {
        return Ok(None);
    };
    if !form.are_enough(found) || any_below(found) {
        return Ok(None);
    }
    Ok(Some(rest))
}

// A number of 32 bits, 0 where there is none.
fn count(numbers: &[i128], k: usize) -> u32
    requires { All IsCount numbers.now }
    ensures { result ≡ count_at numbers.now k }
{
    match numbers.get(k) {
        Some(n) => *n as u32,
        None => 0,
    }
}

fn objects(alloc: Global, numbers: &[i128]) -> Result<Items<u32>, AllocError>
    requires { All IsCount numbers.now }
    ensures { IfOk result (λ objects. objects ≡ map unsigned_abs numbers.now) }
{
    let mut objects = Items::new(alloc);
    for n in numbers {
        objects.push(*n as u32)?;
    }
    Ok(objects)
}

fn node(alloc: Global, form: Form, numbers: &[i128]) -> Result<Node, AllocError>
    requires { All IsCount numbers.now }
    ensures { IfOk result (λ node. node ≡ node_of form numbers.now) }
{
    match form {
        Form::Order => Ok(Node::Order {
            i: count(numbers, 0),
            j: count(numbers, 1),
        }),
        Form::Side => Ok(Node::Side {
            contact: Contact {
                i: count(numbers, 0),
                zi: count(numbers, 1),
                part: count(numbers, 2),
                zj: count(numbers, 3),
                j: count(numbers, 4),
            },
            children: count(numbers, 5),
        }),
        Form::Cycle => Ok(Node::Cycle {
            objects: objects(alloc, numbers)?,
        }),
    }
}

fn unread(bytes: &[u8]) -> Stop
    ensures { result ≡ unread bytes.now }
{
    if has_line_end(bytes) {
        Stop::Other
    } else {
        Stop::Unended
    }
}

#[tactic(auto, unfolding(crate::specs::Lines::formed_at))]
fn formed(alloc: Global, form: Form, bytes: &[u8]) -> Result<(Node, &[u8]), LineFault>
    ensures read { IfOk result (λ r. formed_at form bytes.now ≡ Ok (r.0, r.1.now)) }
    ensures stops { (stop : Stop) → result ≡ Err (LineFault.Stop stop)
        → formed_at form bytes.now ≡ Err stop }
{
    let mut found = Vec::new(alloc);
    let Ok(line) = form_line(&mut found, form, bytes) else {
        return Err(LineFault::NoMemory);
    };
    let Some(rest) = line else {
        return Err(LineFault::Stop(unread(bytes)));
    };
    if any_far(&found) {
        return Err(LineFault::Stop(Stop::Range));
    }
    match node(alloc, form, &found) {
        Ok(node) => Ok((node, rest)),
        Err(_) => Err(LineFault::NoMemory),
    }
}

#[tactic(auto, unfolding(crate::specs::Lines::paired_at))]
fn paired(alloc: Global, bytes: &[u8]) -> Result<(Node, &[u8]), LineFault>
    ensures read { IfOk result (λ r. paired_at bytes.now ≡ Ok (r.0, r.1.now)) }
    ensures stops { (stop : Stop) → result ≡ Err (LineFault.Stop stop)
        → paired_at bytes.now ≡ Err stop }
{
    let mut found = Vec::new(alloc);
    let Ok(line) = bound_line(&mut found, bytes) else {
        return Err(LineFault::NoMemory);
    };
    let Some(rest) = line else {
        return Err(LineFault::Stop(unread(bytes)));
    };
    let mults = mults_of_pairs(alloc, &found)?;
    Ok((
        Node::Bound {
            mults: Items::from_vec(mults),
        },
        rest,
    ))
}

/// The node of the line at the front, and the bytes after that line.
#[tactic(auto, unfolding(crate::specs::Lines::line_at))]
pub(crate) fn node_line(alloc: Global, bytes: &[u8]) -> Result<(Node, &[u8]), LineFault>
    ensures read { IfOk result (λ r. line_at bytes.now ≡ Ok (r.0, r.1.now)) }
    ensures stops { (stop : Stop) → result ≡ Err (LineFault.Stop stop)
        → line_at bytes.now ≡ Err stop }
{
    if let Some(rest) = literal(bytes, b"order") {
        return formed(alloc, Form::Order, rest);
    }
    if let Some(rest) = literal(bytes, b"side") {
        return formed(alloc, Form::Side, rest);
    }
    if let Some(rest) = literal(bytes, b"bound") {
        return paired(alloc, rest);
    }
    if let Some(rest) = literal(bytes, b"cycle") {
        return formed(alloc, Form::Cycle, rest);
    }
    if let Some(rest) = literal(bytes, b"pending\n") {
        return Ok((Node::Pending, rest));
    }
    Err(LineFault::Stop(unread(bytes)))
}
