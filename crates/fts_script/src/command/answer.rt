// The answer to a search, as the text of a JSON object.
ghost use Rattle.std.specs.Prelude.{◌≡◌, ◌++◌, IfOk, OnOk, option_map, string_bytes};
ghost use Rattle.serde_json.specs.Data.{array};
ghost use Rattle.serde_json.specs.View.{view};
ghost use Rattle.serde_json.specs.Written.{comma_if, compact_text};
ghost use Rattle.fts_model.specs.Documents.{json_of};
ghost use Rattle.fts_script.specs.command.AnswerData.{answer_data, groups_data, hit_data, hits_data, number_data};
ghost use Rattle.fts_script.specs.command.AnswerTexts.{IsWritten, groups_label, list_text, top_label};
ghost use Rattle.fts_script.specs.command.AnswerData.{group_data, value_data};
ghost use Rattle.fts_script.specs.command.Cuts.{cut_answer, cut_hit, cut_hits};
ghost use Rattle.std.specs.Option.{option_copied};

use fts_model::{Answer, GroupValue, Hit, Number, Text};
use itoa::Buffer;
use json::Writer;
use serde_json::Value;
use std::alloc::{AllocError, Global};

// A group of a number takes about as many bytes.
const GROUP_ROOM: usize = 16;

/// Writes the value of a group.
fn write_value(value: &GroupValue, out: &mut Writer) -> Result<(), AllocError>
    ensures ok { OnOk result (IsWritten (value_data value.now) out.old out.new) }
{
    match value {
        GroupValue::U64(n) => out.u64(*n),
        GroupValue::I64(n) => out.i64(*n),
        GroupValue::Keyword(text) => out.string(text.as_str()),
    }
}

/// Writes a value and how many hits have it.
fn write_group(group: &(GroupValue, u64), out: &mut Writer) -> Result<(), AllocError>
    ensures ok { OnOk result (IsWritten (group_data group.now) out.old out.new) }
{
    out.begin_array()?;
    write_value(&group.0, out)?;
    out.u64(group.1)?;
    out.end_array()
}

/// Returns groups as the text of a JSON array, in their order.
fn groups_text(alloc: Global, groups: &[(GroupValue, u64)]) -> Result<String, AllocError>
    ensures { IfOk result (λ text. string_bytes text ≡ compact_text (array (groups_data groups.now))) }
{
    let room = groups.len().saturating_mul(GROUP_ROOM);
    let mut out = Writer::new(Vec::with_capacity(alloc, room)?);
    out.begin_array()?;
    for group in groups {
        write_group(group, &mut out)?;
    }
    out.end_array()?;
    // The writer's clause says that its bytes are UTF-8.
    Ok(unsafe { String::from_utf8_unchecked(out.into_inner()) })
}

/// Appends the value of a hit as JSON.
fn push_value(value: Number, text: &mut String) -> Result<(), AllocError>
    ensures { OnOk result (string_bytes text.new ≡ string_bytes text.old ++ compact_text (number_data value)) }
{
    match value {
        Number::U64(n) => text.push_str(Buffer::new().format(n)),
        Number::I64(n) => text.push_str(Buffer::new().format(n)),
    }
}

/// The document of a hit as JSON, cut to the fields of these names if there are names.
fn document_value(alloc: Global, hit: &Hit, names: Option<&[Text]>) -> Result<Value, AllocError>
    ensures { IfOk result (λ value. view value ≡ json_of (cut_hit (option_copied names.entry) hit.now).document) }
{
    if let Some(names) = names {
        return hit.document.to_json_of(alloc, names);
    }
    match hit.document.to_json(alloc) {
        Ok(value) => Ok(value),
        // The only refusal of `to_json` is `Memory`.
        Err(_) => Err(AllocError),
    }
}

/// Appends a hit as the text of a JSON object. If there are names, its document shows only their fields.
fn push_hit(
    alloc: Global,
    hit: &Hit,
    names: Option<&[Text]>,
    text: &mut String,
) -> Result<(), AllocError>
    ensures { OnOk result (string_bytes text.new ≡ string_bytes text.old
        ++ compact_text (hit_data (cut_hit (option_copied names.entry) hit.now))) }
{
    // There is no float in it.
    let document = document_value(alloc, hit, names)?.to_string(alloc)?;
    text.push_str("{\"doc\":")?;
    text.push_str(document.as_str())?;
    text.push_str(",\"stamp\":")?;
    text.push_str(Buffer::new().format(hit.stamp))?;
    text.push_str(",\"value\":")?;
    push_value(hit.value, text)?;
    text.push_str("}")?;
    Ok(())
}

/// Appends the comma before an item of a list, if the item isn't the first.
fn push_comma(is_later: bool, list: &mut String) -> Result<(), AllocError>
    ensures { OnOk result (string_bytes list.new ≡ string_bytes list.old ++ comma_if is_later) }
{
    if is_later {
        list.push_str(",")?;
    }
    Ok(())
}

/// Appends hits as the text of a JSON array, in their order. What is made of a hit is given back before the next.
fn push_hits(
    alloc: Global,
    hits: &[Hit],
    names: Option<&[Text]>,
    text: &mut String,
) -> Result<(), AllocError>
    ensures { OnOk result (string_bytes text.new ≡ string_bytes text.old
        ++ compact_text (array (hits_data (cut_hits (option_copied names.entry) hits.now)))) }
{
    text.push_str("[")?;
    for (index, hit) in hits.iter().enumerate() {
        push_comma(index > 0, text)?;
        push_hit(alloc, hit, names, text)?;
    }
    text.push_str("]")?;
    Ok(())
}

/// Appends the groups to the members of an answer, if they were asked for.
fn push_groups(
    alloc: Global,
    groups: Option<&[(GroupValue, u64)]>,
    text: &mut String,
) -> Result<(), AllocError>
    ensures { OnOk result (string_bytes text.new ≡ string_bytes text.old
        ++ list_text groups_label (option_map groups_data (option_copied groups.entry))) }
{
    let Some(groups) = groups else {
        return Ok(());
    };
    text.push_str(",\"groups\":")?;
    let groups = groups_text(alloc, groups)?;
    text.push_str(groups.as_str())?;
    Ok(())
}

/// Appends the hits of a top list to the members of an answer, if they were asked for.
fn push_top(
    alloc: Global,
    hits: Option<&[Hit]>,
    names: Option<&[Text]>,
    text: &mut String,
) -> Result<(), AllocError>
    ensures { OnOk result (string_bytes text.new ≡ string_bytes text.old ++ list_text top_label
        (option_map hits_data (option_map (cut_hits (option_copied names.entry)) (option_copied hits.entry)))) }
{
    let Some(hits) = hits else {
        return Ok(());
    };
    text.push_str(",\"top\":")?;
    push_hits(alloc, hits, names, text)?;
    Ok(())
}

/// The text of an answer: an object of the count, and of what else was asked for. If there are names, the documents of
/// hits have only their fields.
pub fn answer_text(
    alloc: Global,
    answer: &Answer,
    names: Option<&[Text]>,
) -> Result<String, AllocError>
    ensures { IfOk result (λ text. string_bytes text
        ≡ compact_text (answer_data (cut_answer (option_copied names.entry) answer.now))) }
{
    let mut text = String::from_str(alloc, "{\"count\":")?;
    text.push_str(Buffer::new().format(answer.count))?;
    push_groups(alloc, answer.groups.as_deref(), &mut text)?;
    push_top(alloc, answer.top.as_deref(), names, &mut text)?;
    text.push_str("}")?;
    Ok(text)
}
