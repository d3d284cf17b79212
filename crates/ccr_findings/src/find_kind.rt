//! What keeps single values from being of their kinds, all of it.
ghost use Rattle.std.specs.Prelude.{◌≡◌, ◌++◌, OnOk};
ghost use Rattle.serde_json.specs.View.{items_view};
ghost use Rattle.ccr_pipeline.specs.Keys.{here, path_of};
ghost use Rattle.ccr_pipeline.specs.Kinds.{broken_texts, broken_pin};
ghost use Rattle.ccr_pipeline.specs.Objects.{broken};

use crate::present::{Added, Present};
use ccr_history::has_float;
use ccr_pipeline::schema::Kind;
use ccr_pipeline::{Cursor, Place, Rule, is_empty, is_name};
use serde_json::Value;

#[tactic(auto, using(std::proofs::Common::append_assoc, crate::proofs::Lists::and_none))]
fn find_texts(out: &mut Present, list: &[Value], place: &Place) -> Added
    ensures { OnOk result (out.new ≡ out.old ++ broken_texts (path_of place.now) 0 (items_view list.now)) }
{
    for (i, member) in list.iter().enumerate() {
        out.require(&(&*place).member(i), member.is_string(), Rule::Kind)?;
    }
    Ok(())
}

#[tactic(auto, using(std::proofs::Common::append_assoc, crate::proofs::Lists::and_none))]
fn find_pin(out: &mut Present, found: &Cursor) -> Added
    ensures { OnOk result (out.new ≡ out.old ++ here broken_pin found.now) }
{
    let Some(members) = found.value.as_object() else {
        return out.require(&found.place, false, Rule::Kind);
    };
    for (field, member) in members.iter() {
        let place = found.place.key(field.as_str());
        out.require(&place, member.is_string(), Rule::Kind)?;
    }
    Ok(())
}

/// Adds what keeps a value from being of a kind. In the objects that it holds nothing is tested.
#[tactic(auto, using(crate::proofs::Lists::and_none), unfolding(ccr_pipeline::specs::Objects::broken))]
pub(crate) fn find_broken(out: &mut Present, kind: Kind, found: &Cursor) -> Added
    ensures { OnOk result (out.new ≡ out.old ++ here (broken kind) found.now) }
{
    let (value, place) = (found.value, &found.place);
    match kind {
        Kind::Text | Kind::OwnName => out.require(place, value.is_string(), Rule::Kind),
        Kind::Steps | Kind::Objects(_) => out.require(place, value.is_array(), Rule::Kind),
        Kind::Truth => out.require(place, value.is_boolean(), Rule::Kind),
        Kind::Whole => out.require(place, value.is_u64(), Rule::Kind),
        Kind::Name => match value.as_str() {
            Some(text) => out.require(place, is_name(text), Rule::Name),
            None => out.require(place, false, Rule::Kind),
        },
        Kind::Texts => match value.as_array() {
            Some(list) => find_texts(out, list, place),
            None => out.require(place, false, Rule::Kind),
        },
        Kind::Params => match value.as_object() {
            Some(_) => out.require(place, !has_float(value), Rule::Whole),
            None => out.require(place, false, Rule::Kind),
        },
        Kind::Fields => find_pin(out, found),
        Kind::Nothing => match value.as_object() {
            Some(members) => out.require(place, is_empty(members), Rule::Supported),
            None => out.require(place, false, Rule::Kind),
        },
        Kind::Wanted => match value.as_str() {
            Some(text) => out.require(place, text == "latest" || text == "every", Rule::Kind),
            None => find_pin(out, found),
        },
        Kind::Undone => out.require(place, false, Rule::Supported),
        Kind::Object(_) | Kind::Parallel | Kind::Step | Kind::Attempts | Kind::Any => Ok(()),
    }
}
