//! What two starts have otherwise of their profiles and of the order of their levels.
ghost use Rattle.std.specs.Prelude.{◌≡◌, ◌++◌, map, string_bytes, IfOk, OnOk};
ghost use Rattle.mls_differences.specs.Changes.{heads_rows, levels_rows, profile_rows, same_order, same_profile};
ghost use Rattle.mls_differences.specs.Sides.{levels_of};

use crate::change::{Change, push_change};
use crate::levels::common_text;
use crate::name_lists::is_same;
use crate::side::Area;
use mls_lines::Names;
use mls_rules::State;
use mls_tree::Profile;
use std::alloc::{AllocError, Global};

/// Whether two profiles are the same.
fn is_same_profile(here: Profile, there: Profile) -> bool
    ensures { result ≡ same_profile here there }
{
    match here {
        Profile::One => matches!(there, Profile::One),
        Profile::Two => matches!(there, Profile::Two),
    }
}

/// Adds the row of two profiles, where they aren't the same.
fn push_profiles(rows: &mut Vec<Change>, here: Profile, there: Profile) -> Result<(), AllocError>
    ensures { OnOk result (rows.new.items ≡ rows.old.items ++ profile_rows here there) }
{
    if is_same_profile(here, there) {
        return Ok(());
    }
    push_change(rows, Change::Profile(here, there))
}

/// Whether the levels that two lists share stand in the same order in both.
fn have_same_order(alloc: Global, levels: &[String], others: &[String]) -> Result<bool, AllocError>
    ensures { IfOk result (λ same. same
        ≡ same_order (map string_bytes levels.now) (map string_bytes others.now)) }
{
    let here = common_text(alloc, levels, others)?;
    let there = common_text(alloc, others, levels)?;
    let same = is_same(here.as_str(), there.as_str());
    drop(there);
    drop(here);
    Ok(same)
}

/// Whether the levels that the schemes of two starts share stand in the same order in both.
fn is_same_order(alloc: Global, names: (&Names, &Names), area: Area) -> Result<bool, AllocError>
    ensures { IfOk result (λ same. same
        ≡ same_order (levels_of names.entry.0.now area) (levels_of names.entry.1.now area)) }
{
    let levels = area.levels(alloc, names.0)?;
    let others = area.levels(alloc, names.1)?;
    let same = have_same_order(alloc, &levels, &others);
    drop(others);
    drop(levels);
    same
}

/// Adds the row of the levels that the schemes of two starts share, where their order isn't the same.
fn push_levels(
    alloc: Global,
    rows: &mut Vec<Change>,
    names: (&Names, &Names),
    area: Area,
) -> Result<(), AllocError>
    ensures { OnOk result (rows.new.items ≡ rows.old.items
        ++ levels_rows names.entry.0.now names.entry.1.now area) }
{
    let same = is_same_order(alloc, names, area)?;
    if same {
        return Ok(());
    }
    push_change(rows, Change::Levels(area))
}

/// Adds what two starts have otherwise of their profiles and of the order of their levels.
pub(crate) fn push_heads(
    alloc: Global,
    rows: &mut Vec<Change>,
    names: (&Names, &Names),
    states: (&State, &State),
) -> Result<(), AllocError>
    ensures { OnOk result (rows.new.items ≡ rows.old.items
        ++ heads_rows names.entry.0.now names.entry.1.now states.entry.0.now states.entry.1.now) }
{
    push_profiles(rows, states.0.profile(), states.1.profile())?;
    push_levels(alloc, rows, names, Area::Security)?;
    push_levels(alloc, rows, names, Area::Integrity)
}
