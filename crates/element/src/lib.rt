// Elements of lists: one item of one list of the frame at a buffer's start. Rules and frame go beside each other, as in `items`.
#![tactic(auto)]

ghost use Rattle.std.specs.Prelude.{◌≡◌};
ghost use Rattle.protocol.specs.Elements.{element_at, element_by, element_of, read_item_at, value_or};
ghost use Rattle.protocol.specs.Rules.{rules_of};
ghost use Rattle.protocol.specs.Told.{found};
ghost use Rattle.element.specs.OneList.{item_of, listed_of};

pub mod list;

use codec::Cursor;
use items::{ErrorField, Format, Item, Oid, Pair, RowField, Value};
use list::{Sort, list_of};
use protocol::refusal::{Refusal, Unread};
use protocol::{Element, List, Rules, rules_of};

// Past the items before it, from the list's start: by arithmetic where all have one size, else by one walk.
fn item_at<I: Item>(
    rules: Rules,
    frame: &[u8],
    start: usize,
    number: usize,
) -> Result<Element, Unread>
    ensures { found result ≡ element_by I.item.element (read_item_at rules I.item number frame.now start) }
{
    let c = I::pass(rules, frame, Cursor { at: start }, number)?;
    let (element, _) = I::read(rules, frame, c)?;
    Ok(element)
}

// The item of that number of a list of that sort. The message tells the sort, so only here does it become the item's type.
fn sorted_at(
    rules: Rules,
    frame: &[u8],
    sort: Sort,
    start: usize,
    number: usize,
) -> Result<Element, Unread>
    ensures { found result ≡ element_by (item_of sort).element (read_item_at rules (item_of sort) number frame.now start) }
{
    match sort {
        Sort::Oid => item_at::<Oid>(rules, frame, start, number),
        Sort::Format => item_at::<Format>(rules, frame, start, number),
        Sort::Value => item_at::<Value>(rules, frame, start, number),
        Sort::Field => item_at::<RowField>(rules, frame, start, number),
        Sort::ErrorField => item_at::<ErrorField>(rules, frame, start, number),
        Sort::Pair => item_at::<Pair>(rules, frame, start, number),
    }
}

fn element_in(
    rules: Rules,
    frame: &[u8],
    list: Option<(Sort, List)>,
    number: usize,
) -> Result<Element, Unread>
    ensures { found result ≡ element_at rules frame.now number (listed_of list) }
{
    let Some((sort, its)) = list else {
        return Err(Unread::Refused(Refusal::NoSuchElement.at(0)));
    };
    if its.count <= number {
        return Err(Unread::Refused(Refusal::NoSuchElement.at(0)));
    }
    sorted_at(rules, frame, sort, its.start, number)
}

pub fn element_by(rules: Rules, buf: &[u8], list: usize, number: usize) -> Result<Element, Unread>
    ensures { found result ≡ element_of rules buf.now list number }
{
    let (message, end) = decode::decode_by(rules, buf)?;
    element_in(rules, &buf[..end], list_of(message, list), number)
}

// Element `number` of list `list` of the frame, after decode's own refusal or need-more; 11 where there is no such list or element.
pub fn element(mode: u8, buf: &[u8], list: usize, number: usize) -> Result<Element, Unread>
    ensures { found result ≡ element_of (rules_of mode) buf.now list number }
{
    element_by(rules_of(mode), buf, list, number)
}

// A value's own bytes, or the stand-in where the value is NULL; where there is no value, the empty start of the stand-in.
pub fn value_or<'a>(
    mode: u8,
    buf: &'a [u8],
    list: usize,
    number: usize,
    stand_in: &'a [u8],
) -> &'a [u8]
    ensures { result.now ≡ value_or buf.now stand_in.now (element_of (rules_of mode) buf.now list number) }
{
    let Ok(element) = element(mode, buf, list, number) else {
        return &stand_in[..0];
    };
    match element {
        Element::Value(span) => decode::part(buf, span.start, span.len),
        Element::Null => stand_in,
        _ => &stand_in[..0],
    }
}
