//! The answer to a case.

ghost use Rattle.ix_lut.specs.Shapes.{IsUsable};
ghost use Rattle.ix_lut.specs.Plans.{AreUses};

use crate::checks::{are_places, are_uses, is_table, is_usable};
use crate::reading::{bits_of, cells_of, shape_of, six_of, ties_of};
use crate::telling::put_plan;
use ix_cases::{field, number};
use ix_lut::{
    ElementPlan, ElementShape, InitValue, LutUse, Table, element, function_at, permute, read_init,
};
use std::alloc::{AllocError, Global};

// Makes an element's plan so many times, and tells the last.
fn planned(shape: &ElementShape, uses: &[LutUse], times: u32) -> Option<ElementPlan>
    requires shape { IsUsable shape.now }
    requires uses { AreUses shape.now uses.now }
{
    let mut plan = None;
    for _ in 0..times {
        plan = element(shape, uses);
    }
    plan
}

fn put_element(text: &mut String, line: &str, times: u32) -> Result<(), AllocError> {
    let shape = shape_of(number(field(line, 2)), field(line, 3));
    let given = cells_of(field(line, 4));
    let uses = &given.cells[..given.count.min(8) as usize];
    if !is_usable(&shape) {
        return text.push_str("not usable");
    }
    if given.count > 8 || !are_uses(&shape, uses) {
        return text.push_str("no cells of it");
    }
    match planned(&shape, uses, times) {
        Some(plan) => put_plan(text, &plan, uses),
        None => text.push_str("no plan"),
    }
}

fn put_table(text: &mut String, table: Table) -> Result<(), AllocError> {
    let inputs = table.inputs;
    let bits = table.bits;
    write!(text, "{inputs} inputs, table {bits:x}")
}

fn put_function(text: &mut String, line: &str) -> Result<(), AllocError> {
    let shape = shape_of(number(field(line, 2)), field(line, 3));
    let bel = number(field(line, 5));
    if !is_usable(&shape) || bel >= shape.bel_count {
        return text.push_str("not usable");
    }
    let six = six_of(field(line, 6));
    let places = &six.numbers[..six.count.min(6) as usize];
    if !are_places(shape.bels[bel as usize].inputs, places) {
        return text.push_str("not places");
    }
    let ties = ties_of(field(line, 7));
    match function_at(&shape, bits_of(field(line, 4)), bel, places, &ties) {
        Some(table) => put_table(text, table),
        None => text.push_str("no function"),
    }
}

fn put_permuted(text: &mut String, line: &str) -> Result<(), AllocError> {
    let table = Table {
        bits: bits_of(field(line, 2)),
        inputs: number(field(line, 3)),
    };
    if !is_table(&table) {
        return text.push_str("no table");
    }
    let to = six_of(field(line, 4)).numbers;
    if !are_places(table.inputs, &to[..table.inputs as usize]) {
        return text.push_str("not places");
    }
    put_table(text, permute(table, to))
}

fn put_init(text: &mut String, inputs: u32, value: InitValue<'_>) -> Result<(), AllocError> {
    if inputs < 1 || inputs > 6 {
        return text.push_str("not 1 to 6 inputs");
    }
    match read_init(value, inputs) {
        Some(table) => put_table(text, table),
        None => text.push_str("no reading"),
    }
}

/// What the case of a line shows, and the answer.
pub(crate) fn answer_to(alloc: Global, line: &str) -> Result<String, AllocError> {
    let mut text = String::from_str(alloc, field(line, 0))?;
    text.push_str(": ")?;
    let call = field(line, 1);
    if let Some(times) = call.strip_prefix("element*") {
        put_element(&mut text, line, number(times))?;
        return Ok(text);
    }
    match call {
        "element" => put_element(&mut text, line, 1)?,
        "function" => put_function(&mut text, line)?,
        "permute" => put_permuted(&mut text, line)?,
        "text" => {
            let value = InitValue::Text(field(line, 3));
            put_init(&mut text, number(field(line, 2)), value)?
        }
        "number" => {
            let value = InitValue::Int(number(field(line, 3)));
            put_init(&mut text, number(field(line, 2)), value)?
        }
        _ => text.push_str("no such call")?,
    }
    Ok(text)
}
