ghost use Rattle.std.specs.Prelude.{◌≡◌, nat_le};
ghost use Rattle.map_expr.specs.Terms.{term_of, depth_of};
ghost use Rattle.map_expr.specs.Checks.{IsNameless, has_counter, counts_once, bad_number, bad_lanes, bad_widths, bad_granule, is_width, are_widths, checked};

use crate::{FieldWidth, MapExpr};
use places::{MAX_LANES, MAX_WIDTH};
use thiserror::Error;

/// Why an expression is no mapping, in the order in which the causes are looked for.
#[derive(Clone, Copy, Debug, PartialEq, Eq, Error)]
pub enum BadMapping {
    /// The expression nests more than 8 deep, counters left out.
    #[error("the mapping nests more than 8 deep")]
    TooDeep,
    /// A counter stands below a node that is none, or twice.
    #[error("a counter stands below a node that is none, or twice")]
    Counter,
    /// The lanes are not 1 to 64.
    #[error("the lanes are not 1 to 64")]
    Lanes,
    /// A width is not 1 to 64.
    #[error("a width is not 1 to 64")]
    Width,
    /// The granule is no power of two from 1 to 4,096.
    #[error("the granule is no power of two from 1 to 4096")]
    Granule,
    /// All cells or none go to the first side of a split.
    #[error("one side of a split has no cell")]
    Side,
    /// A width is said of a path that none of the mapping's cells is under.
    #[error("a width is said of a path that no cell is under")]
    Field,
    /// A cell under byteswap or bytesplit is stored with another sign or width than its type has.
    #[error("a cell below byteswap or bytesplit is not stored as its type is")]
    NotFull,
}

/// How deep an expression may nest, counters left out.
const MAX_DEPTH: u32 = 8;

impl MapExpr {
    /// Whether the expression can be a mapping, whatever its cells are: `TooDeep`, then `Counter`, then the first number in the
    /// order of the text that is out of its range. It takes stack for at most 8 levels that are no counters, and for each counter above
    /// these, however many there are.
    pub fn check(&self) -> Result<(), BadMapping>
        requires nameless { IsNameless (term_of self.now) }
        ensures { result ≡ checked (term_of self.now) }
    {
        if !is_within(self, MAX_DEPTH) {
            return Err(BadMapping::TooDeep);
        }
        if !counts_once(self, true, true) {
            return Err(BadMapping::Counter);
        }
        match bad_number(self) {
            Some(bad) => Err(bad),
            None => Ok(()),
        }
    }
}

/// Whether the depth is at most `most`. It looks no deeper than that.
fn is_within(expr: &MapExpr, most: u32) -> bool
    ensures { result ≡ nat_le (depth_of (term_of expr.now)) most }
{
    match expr {
        MapExpr::Count(inner) => is_within(inner, most),
        MapExpr::Heat { granule: _, inner } => is_within(inner, most),
        MapExpr::Split {
            path: _,
            first,
            rest,
        } => most > 0 && is_within(first, most - 1) && is_within(rest, most - 1),
        MapExpr::Byteswap(inner) | MapExpr::Bytesplit(inner) => {
            most > 0 && is_within(inner, most - 1)
        }
        MapExpr::Change {
            from: _,
            to: _,
            inner,
        } => most > 0 && is_within(inner, most - 1),
        _ => most > 0,
    }
}

/// Whether some counter stands in the expression.
fn has_counter(expr: &MapExpr) -> bool
    ensures { result ≡ has_counter (term_of expr.now) }
{
    match expr {
        MapExpr::Count(_) => true,
        MapExpr::Heat {
            granule: _,
            inner: _,
        } => true,
        MapExpr::Split {
            path: _,
            first,
            rest,
        } => has_counter(first) || has_counter(rest),
        MapExpr::Byteswap(inner) | MapExpr::Bytesplit(inner) => has_counter(inner),
        MapExpr::Change {
            from: _,
            to: _,
            inner,
        } => has_counter(inner),
        _ => false,
    }
}

/// Whether counters stand at the top alone, each kind at most once, where `count` and `heat` say which kinds may still come.
fn counts_once(expr: &MapExpr, count: bool, heat: bool) -> bool
    ensures { result ≡ counts_once count heat (term_of expr.now) }
{
    match expr {
        MapExpr::Count(inner) => count && counts_once(inner, false, heat),
        MapExpr::Heat { granule: _, inner } => heat && counts_once(inner, count, false),
        _ => !has_counter(expr),
    }
}

/// The first number that is out of its range, in the order of the text.
fn bad_number(expr: &MapExpr) -> Option<BadMapping>
    ensures { result ≡ bad_number (term_of expr.now) }
{
    match expr {
        MapExpr::Aosoa { lanes, order: _ } => bad_lanes(*lanes),
        MapExpr::BitAos {
            width,
            fields,
            order: _,
        }
        | MapExpr::BitSoa {
            width,
            fields,
            order: _,
        } => bad_widths(*width, fields.as_slice()),
        MapExpr::Split {
            path: _,
            first,
            rest,
        } => bad_number(first).or(bad_number(rest)),
        MapExpr::Byteswap(inner) | MapExpr::Bytesplit(inner) | MapExpr::Count(inner) => {
            bad_number(inner)
        }
        MapExpr::Change {
            from: _,
            to: _,
            inner,
        } => bad_number(inner),
        MapExpr::Heat { granule, inner } => bad_granule(*granule).or(bad_number(inner)),
        _ => None,
    }
}

fn bad_lanes(lanes: u32) -> Option<BadMapping>
    ensures { result ≡ bad_lanes lanes }
{
    if (1..=MAX_LANES).contains(&lanes) {
        None
    } else {
        Some(BadMapping::Lanes)
    }
}

fn is_width(width: u32) -> bool
    ensures { result ≡ is_width width }
{
    (1..=MAX_WIDTH).contains(&width)
}

// Whether each entry has a width.
fn are_widths(fields: &[FieldWidth]) -> bool
    ensures { result ≡ are_widths fields.now }
{
    fields.iter().all(|entry| is_width(entry.width))
}

fn bad_widths(width: u32, fields: &[FieldWidth]) -> Option<BadMapping>
    ensures { result ≡ bad_widths width fields.now }
{
    if is_width(width) && are_widths(fields) {
        None
    } else {
        Some(BadMapping::Width)
    }
}

fn bad_granule(granule: u32) -> Option<BadMapping>
    ensures { result ≡ bad_granule granule }
{
    match granule {
        1 | 2 | 4 | 8 | 16 | 32 | 64 | 128 | 256 | 512 | 1024 | 2048 | 4096 => None,
        _ => Some(BadMapping::Granule),
    }
}
