ghost use Rattle.std.specs.Prelude.{◌≡◌, ◌≢◌, ◌<◌, true, false, IfSome, None, length};
ghost use Rattle.extents.specs.Indices.{indices};
ghost use Rattle.map_expr.specs.Terms.{term_of};
ghost use Rattle.map_any.specs.Counters.{is_counted};
ghost use Rattle.views.specs.Prelude.{leaf_count_of};
ghost use Rattle.leaf_places.specs.Places.{ArePlacesOf, IsDirect, MustTell};

use crate::form::{is_field, is_form, is_turned};
use crate::groups::groups_of;
use crate::search::groups_sought;
use crate::sought::Sought;
use crate::told::Places;
use map_expr::MapExpr;
use piece_bits::Word;
use places::{Mapping, laws_of};
use views::View;

/// Where the numbers of a leaf lie. None where accesses are counted, where the leaf is stored in another sign than that of its type, and where
/// the numbers neither go in groups of rows nor in Morton order over two extents, each as whole bytes or as at most 57 bits.
pub fn places_of(view: &View, leaf: usize) -> Option<Places>
    requires { leaf < leaf_count_of view.now }
    ensures places { IfSome result (ArePlacesOf leaf view.now) }
    ensures direct { IfSome result (λ places. IsDirect leaf view.now) }
    ensures told { MustTell leaf view.now → result ≢ None }
{
    if !is_direct(view, leaf) {
        return None;
    }
    match short_places(view, leaf) {
        Some(places) => Some(places),
        None => places_found(view, leaf),
    }
}

/// Whether accesses to a leaf read the number itself.
fn is_direct(view: &View, leaf: usize) -> bool
    requires { leaf < leaf_count_of view.now }
    ensures yes { result ≡ true → IsDirect leaf view.now }
    ensures no { IsDirect leaf view.now → result ≡ true }
{
    let stored = view.map().hold(leaf).signed;
    let declared = view.schema().leaf_type(leaf).signed();
    !is_counted(view.expr()) && are_same(stored, declared)
}

/// Whether an expression counts accesses, by leaf or by granule.
fn is_counted(expr: &MapExpr) -> bool
    ensures { result ≡ is_counted (term_of expr.now) }
{
    matches!(expr, MapExpr::Count(_) | MapExpr::Heat { .. })
}

/// Whether two signs are one.
fn are_same(one: bool, other: bool) -> bool
    ensures yes { result ≡ true → one ≡ other }
    ensures no { one ≡ other → result ≡ true }
{
    one == other
}

/// By the short form of its rule, if it has one and the bytes of a number do not stand each by itself. It takes no look at a row.
fn short_places(view: &View, leaf: usize) -> Option<Places>
    requires leaf_in { leaf < leaf_count_of view.now }
    requires direct { IsDirect leaf view.now }
    ensures { IfSome result (ArePlacesOf leaf view.now) }
{
    let map = view.map();
    laws_of(map);
    let short = &map.short(leaf).short;
    if matches!(short.word, Word::Scattered) {
        return None;
    }
    let blob = short.blob;
    if blob >= map.blob_count() {
        return None;
    }
    let groups = groups_of(short, view.extents().count())?;
    let hold = map.hold(leaf);
    Some(Places {
        blob,
        bytes: map.blob_bytes(blob),
        base: short.base,
        lanes: groups.lanes,
        lane: groups.lane,
        block: groups.block,
        width: hold.width,
        is_signed: hold.signed,
        is_turned: is_turned(short.word),
        in_bits: is_field(short.word),
        in_digits: groups.in_digits,
    })
}

/// By a look at each row, in bytes or else in bits.
fn places_found(view: &View, leaf: usize) -> Option<Places>
    requires leaf_in { leaf < leaf_count_of view.now }
    requires direct { IsDirect leaf view.now }
    ensures places { IfSome result (ArePlacesOf leaf view.now) }
    ensures told { MustTell leaf view.now → result ≢ None }
{
    if view.extents().count() == 0 {
        return None;
    }
    if let Some(places) = places_sought(view, leaf, false, false) {
        return Some(places);
    }
    if let Some(places) = places_sought(view, leaf, false, true) {
        return Some(places);
    }
    places_sought(view, leaf, true, false)
}

/// As they are sought: in bits or in bytes, and these turned or not.
fn places_sought(view: &View, leaf: usize, in_bits: bool, is_turned: bool) -> Option<Places>
    requires leaf_in { leaf < leaf_count_of view.now }
    requires direct { IsDirect leaf view.now }
    requires some { 0 < length (indices view.now.extents) }
    ensures places { IfSome result (ArePlacesOf leaf view.now) }
    ensures told { (places : Places) → ArePlacesOf leaf view.now places → places.in_digits ≡ false → places.in_bits ≡ in_bits
        → places.is_turned ≡ is_turned → result ≢ None }
{
    let map = view.map();
    laws_of(map);
    let hold = map.hold(leaf);
    let sought = Sought {
        leaf,
        width: hold.width,
        is_turned,
        in_bits,
    };
    if !is_form(in_bits, is_turned, hold.width) {
        return None;
    }
    let groups = groups_sought(map, sought)?;
    Some(Places {
        blob: groups.blob,
        bytes: map.blob_bytes(groups.blob),
        base: groups.base,
        lanes: groups.lanes,
        lane: groups.lane,
        block: groups.block,
        width: hold.width,
        is_signed: hold.signed,
        is_turned,
        in_bits,
        in_digits: false,
    })
}
