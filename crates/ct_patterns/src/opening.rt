ghost use Rattle.std.specs.Prelude.{◌≡◌, ◌++◌, IfOk, OnOk, option_map, map};
ghost use Rattle.cd_codec.specs.View.{view, views, views_of_fields};
ghost use Rattle.ct_patterns.specs.Views.{byte, part_view, waiting};
ghost use Rattle.ct_patterns.specs.Meets.{fields_at};
ghost use Rattle.ct_patterns.specs.Met.{layer_view, opened_opt, opened_seq, opened_rec, opened_var, opened, after_step};

use crate::layer::{Layer, is_same, layer_of};
use crate::step::{Part, Step};
use cd_codec::Value;
use ic_base::NoMemory;

/// Adds values, the last first.
pub(crate) fn open_values<'v>(values: &'v [Value], next: &mut Vec<Part<'v>>) -> Result<(), NoMemory>
    ensures { OnOk result (waiting next.new.items ≡ views values.now ++ waiting next.old.items) }
{
    let mut index = values.len();
    while index > 0 {
        index -= 1;
        next.push(Part::Value(&values[index]))?;
    }
    Ok(())
}

fn open_bytes(bytes: &[u8], next: &mut Vec<Part<'_>>) -> Result<(), NoMemory>
    ensures { OnOk result (waiting next.new.items ≡ map byte bytes.now ++ waiting next.old.items) }
{
    let mut index = bytes.len();
    while index > 0 {
        index -= 1;
        next.push(Part::Byte(bytes[index]))?;
    }
    Ok(())
}

// Adds the values of the fields at these places, the last first; false: one is not there.
fn open_fields<'v>(
    places: &[u32],
    fields: &'v [(u32, Value)],
    next: &mut Vec<Part<'v>>,
) -> Result<bool, NoMemory>
    ensures { IfOk result (λ met. after_step met (waiting next.new.items) ≡ option_map (λ parts. parts ++ waiting next.old.items) (fields_at places.now (views_of_fields fields.now))) }
{
    let mut index = places.len();
    while index > 0 {
        index -= 1;
        match fields.get(places[index] as usize) {
            None => return Ok(false),
            Some(field) => next.push(Part::Value(&field.1))?,
        }
    }
    Ok(true)
}

fn open_opt<'v>(layer: Layer<'v>, next: &mut Vec<Part<'v>>) -> Result<bool, NoMemory>
    ensures { IfOk result (λ met. after_step met (waiting next.new.items) ≡ option_map (λ parts. parts ++ waiting next.old.items) (opened_opt (layer_view layer.entry))) }
{
    match layer {
        Layer::Opt(part) => {
            next.push(Part::Value(part))?;
            Ok(true)
        }
        Layer::Leaf(_) => Ok(false),
        Layer::Seq(_) => Ok(false),
        Layer::Rec(_) => Ok(false),
        Layer::Var(_, _) => Ok(false),
    }
}

fn open_seq<'v>(count: usize, layer: Layer<'v>, next: &mut Vec<Part<'v>>) -> Result<bool, NoMemory>
    ensures { IfOk result (λ met. after_step met (waiting next.new.items) ≡ option_map (λ parts. parts ++ waiting next.old.items) (opened_seq count (layer_view layer.entry))) }
{
    match layer {
        Layer::Leaf(leaf) => {
            if leaf.kind != 17 || leaf.bytes.bytes.len() != count {
                return Ok(false);
            }
            open_bytes(leaf.bytes.bytes, next)?;
            Ok(true)
        }
        Layer::Seq(values) => {
            if values.len() != count {
                return Ok(false);
            }
            open_values(values, next)?;
            Ok(true)
        }
        Layer::Opt(_) => Ok(false),
        Layer::Rec(_) => Ok(false),
        Layer::Var(_, _) => Ok(false),
    }
}

fn open_rec<'v>(
    places: &[u32],
    layer: Layer<'v>,
    next: &mut Vec<Part<'v>>,
) -> Result<bool, NoMemory>
    ensures { IfOk result (λ met. after_step met (waiting next.new.items) ≡ option_map (λ parts. parts ++ waiting next.old.items) (opened_rec places.now (layer_view layer.entry))) }
{
    match layer {
        Layer::Rec(fields) => open_fields(places, fields, next),
        Layer::Leaf(_) => Ok(false),
        Layer::Opt(_) => Ok(false),
        Layer::Seq(_) => Ok(false),
        Layer::Var(_, _) => Ok(false),
    }
}

fn open_var<'v>(place: u32, layer: Layer<'v>, next: &mut Vec<Part<'v>>) -> Result<bool, NoMemory>
    ensures { IfOk result (λ met. after_step met (waiting next.new.items) ≡ option_map (λ parts. parts ++ waiting next.old.items) (opened_var place (layer_view layer.entry))) }
{
    match layer {
        Layer::Var(position, part) => {
            if position != place {
                return Ok(false);
            }
            next.push(Part::Value(part))?;
            Ok(true)
        }
        Layer::Leaf(_) => Ok(false),
        Layer::Opt(_) => Ok(false),
        Layer::Seq(_) => Ok(false),
        Layer::Rec(_) => Ok(false),
    }
}

/// Whether a value meets a step; then its parts that are next are added, the last first.
pub(crate) fn open_step<'v>(
    step: &Step<'_>,
    part: Part<'v>,
    next: &mut Vec<Part<'v>>,
) -> Result<bool, NoMemory>
    ensures { IfOk result (λ met. after_step met (waiting next.new.items) ≡ option_map (λ parts. parts ++ waiting next.old.items) (opened step.now (part_view part.entry))) }
{
    match step {
        Step::Any => Ok(true),
        Step::Bound { .. } => Ok(true),
        Step::Is(value) => Ok(is_same(value, part)),
        Step::Opt => open_opt(layer_of(part), next),
        Step::Seq(count) => open_seq(*count, layer_of(part), next),
        Step::Rec(places) => open_rec(&places.items, layer_of(part), next),
        Step::Var(place) => open_var(*place, layer_of(part), next),
    }
}
