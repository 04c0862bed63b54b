ghost use Rattle.std.specs.Prelude.{◌≡◌, ◌==◌, ◌↔◌, [], ◌∷◌, ◌++◌, List, true, is_some, IfOk, OnOk};
ghost use Rattle.std.specs.List.{position};
ghost use Rattle.std.specs.Option.{option_map};
ghost use Rattle.ris_base.specs.CommandLine.{analysis_named, root_of, rooted, IsAnalysisList};
ghost use Rattle.ris_words.specs.Items.{cut_at, specs_within};

use crate::errors::WordsError;
use ris_base::{Kind, NoMemory, Spec, Specs, VERTEX_LIMIT, read_number};
use std::alloc::Global;

/// A list has at most so many analyses.
const MOST: u64 = 4;

/// The analyses of a list: 1 to 4 items of the forms `bfs:r`, `sssp:r`, `sswp:r` and `wcc`, joined by commas, where r is 1 to
/// 7 decimal digits that spell a number below 4,194,304. A repeated item is allowed. `Usage` exactly where the list isn't of
/// this form, so that `NoMemory` comes only where it is.
pub fn read_analyses(alloc: Global, list: &str) -> Result<Specs, WordsError>
    ensures ok { IfOk result (λ specs. IsAnalysisList list.now specs) }
    ensures usage { (result ≡ Err WordsError.Usage) ↔ ((specs : List Spec) → ¬ IsAnalysisList list.now specs) }
{
    if !is_analysis_list(list.as_bytes()) {
        return Err(WordsError::Usage);
    }
    Ok(listed(alloc, list.as_bytes())?)
}

/// The analyses of a list of this form.
pub fn listed(alloc: Global, list: &[u8]) -> Result<Specs, NoMemory>
    requires { is_some (specs_within 4 list.now) ≡ true }
    ensures { IfOk result (λ specs. specs_within 4 list.now ≡ Some specs) }
{
    let mut specs = Specs::new(alloc);
    push_analyses(&mut specs, list, MOST)?;
    Ok(specs)
}

/// The analyses of a list of this form, with so many at most, behind others.
fn push_analyses(specs: &mut Specs, list: &[u8], most: u64) -> Result<(), NoMemory>
    requires { is_some (specs_within most list.now) ≡ true }
    ensures { OnOk result (option_map (λ more. specs.old ++ more) (specs_within most list.now) ≡ Some specs.new) }
{
    match cut(list, b',') {
        None => push_analysis(specs, list)?,
        Some((item, rest)) => {
            push_analysis(specs, item)?;
            push_analyses(specs, rest, most - 1)?;
        }
    }
    Ok(())
}

/// The analysis that an item says, behind others.
fn push_analysis(specs: &mut Specs, item: &[u8]) -> Result<(), NoMemory>
    requires { is_some (analysis_named item.now) ≡ true }
    ensures { OnOk result (option_map (λ spec. specs.old ++ spec ∷ []) (analysis_named item.now) ≡ Some specs.new) }
{
    match analysis_named(item) {
        Some(spec) => specs.push(spec),
        None => unreachable!(),
    }
}

/// Whether a list has the form, with 4 analyses at most.
pub fn is_analysis_list(list: &[u8]) -> bool
    ensures { result ≡ is_some (specs_within 4 list.now) }
{
    are_analyses(list, MOST)
}

/// Whether a list has the form, with so many analyses at most.
fn are_analyses(list: &[u8], most: u64) -> bool
    ensures { result ≡ is_some (specs_within most list.now) }
{
    if most == 0 {
        return false;
    }
    match cut(list, b',') {
        None => analysis_named(list).is_some(),
        Some((item, rest)) => analysis_named(item).is_some() && are_analyses(rest, most - 1),
    }
}

/// The analysis that an item of a list says.
#[tactic(auto, unfolding(ris_base::specs::CommandLine::analysis_named))]
fn analysis_named(item: &[u8]) -> Option<Spec>
    ensures { result ≡ analysis_named item.now }
{
    if item == b"wcc".as_slice() {
        return Some(Spec {
            kind: Kind::Wcc,
            root: 0,
        });
    }
    if let Some(digits) = item.strip_prefix(b"bfs:") {
        return rooted(Kind::Bfs, digits);
    }
    if let Some(digits) = item.strip_prefix(b"sssp:") {
        return rooted(Kind::Sssp, digits);
    }
    if let Some(digits) = item.strip_prefix(b"sswp:") {
        return rooted(Kind::Sswp, digits);
    }
    None
}

/// The analysis of this kind whose root these digits spell.
fn rooted(kind: Kind, digits: &[u8]) -> Option<Spec>
    ensures { result ≡ rooted kind digits.now }
{
    let root = root_of(digits)?;
    Some(Spec { kind, root })
}

/// The root that digits spell: 1 to 7 of them, below the limit of a vertex number.
fn root_of(digits: &[u8]) -> Option<u32>
    ensures { result ≡ root_of digits.now }
{
    if digits.len() > 7 {
        return None;
    }
    let root = read_number(digits)?;
    if root < VERTEX_LIMIT {
        Some(root as u32)
    } else {
        None
    }
}

/// What stands before the first byte `at`, and what behind it, where there is one.
pub fn cut(bytes: &[u8], at: u8) -> Option<(&[u8], &[u8])>
    ensures { option_map (λ p. (p.0.now, p.1.now)) result ≡ cut_at at bytes.now }
{
    match place_of(bytes, at) {
        Some(place) => Some((&bytes[..place], &bytes[place + 1..])),
        None => None,
    }
}

/// The place of the first byte `at`, where there is one.
fn place_of(bytes: &[u8], at: u8) -> Option<usize>
    ensures { result ≡ position (λ b. b == at) bytes.now }
{
    bytes.iter().position(|byte| *byte == at)
}
