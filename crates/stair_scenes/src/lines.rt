// The lines of a file: scenes, names and repeated blocks.
use crate::fault::{Fault, said};
use crate::numbers::read_number;
use std::alloc::{AllocError, Global};

/// A line of a file, without the blanks around it, its number, and the values with which it is repeated.
#[derive(Drop)]
pub(crate) struct Line {
    pub(crate) number: u32,
    pub(crate) text: String,
    pub(crate) values: String,
}

impl Line {
    fn new(alloc: Global, number: u32, text: String) -> Line {
        Line {
            number,
            text,
            values: String::new(alloc),
        }
    }

    // The same line, in which the values represent their names.
    fn with_values(&self, alloc: Global, values: &[Value]) -> Result<Line, AllocError> {
        let mut known = self.values.clone()?;
        for value in values {
            known.push_str(format!(in alloc; "{} {}: ", value.name, value.text)?.as_str())?;
        }
        Ok(Line {
            number: self.number,
            text: with_values(alloc, self.text.as_str(), values)?,
            values: known,
        })
    }
}

// What represents a name.
#[derive(Drop)]
struct Value {
    name: String,
    text: String,
}

/// A scene: its title, the number of its first line, and its lines.
#[derive(Drop)]
pub(crate) struct Scene {
    pub(crate) title: String,
    pub(crate) number: u32,
    pub(crate) lines: Vec<Line>,
}

/// Reads the scenes of a file. Values of names that are given before the first scene hold in all of them.
pub(crate) fn read_scenes(alloc: Global, text: &str) -> Result<Vec<Scene>, AllocError> {
    let mut scenes: Vec<Scene> = Vec::new(alloc);
    let mut common: Vec<Value> = Vec::new(alloc);
    let mut own: Vec<Value> = Vec::new(alloc);
    let mut number = 0u32;
    for line in text.lines() {
        number = number.saturating_add(1);
        let line = line.trim();
        if line.is_empty() || line.starts_with('#') {
            continue;
        }
        if let Some(title) = line.strip_prefix("scene ") {
            own.clear();
            scenes.push(Scene {
                title: String::from_str(alloc, title)?,
                number,
                lines: Vec::new(alloc),
            })?;
            continue;
        }
        let known = with_values(alloc, line, &own)?;
        let known = with_values(alloc, known.as_str(), &common)?;
        let value = value_of(alloc, known.as_str())?;
        match (value, scenes.last_mut()) {
            (Some(value), Some(_)) => own.push(value)?,
            (Some(value), None) => common.push(value)?,
            (None, Some(scene)) => scene.lines.push(Line::new(alloc, number, known))?,
            // a line before the first scene that gives no value: a scene of its own, in which it is unknown
            (None, None) => scenes.push(before_scenes(alloc, number, known)?)?,
        }
    }
    Ok(scenes)
}

fn before_scenes(alloc: Global, number: u32, text: String) -> Result<Scene, AllocError> {
    let mut lines = Vec::new(alloc);
    lines.push(Line::new(alloc, number, text))?;
    Ok(Scene {
        title: String::from_str(alloc, "before the first scene")?,
        number,
        lines,
    })
}

// The value that a line `let NAME TEXT` gives.
fn value_of(alloc: Global, line: &str) -> Result<Option<Value>, AllocError> {
    let Some(rest) = line.strip_prefix("let ") else {
        return Ok(None);
    };
    let (name, text) = rest.split_once(' ').unwrap_or((rest, ""));
    Ok(Some(Value {
        name: String::from_str(alloc, name)?,
        text: String::from_str(alloc, text.trim())?,
    }))
}

// The text with the values in place of their names. A name that has none stays.
fn with_values(alloc: Global, text: &str, values: &[Value]) -> Result<String, AllocError> {
    let mut made = String::new(alloc);
    let mut is_first = true;
    for piece in text.split('$') {
        if is_first {
            made.push_str(piece)?;
            is_first = false;
            continue;
        }
        let (name, rest) = name_of(piece);
        match values
            .iter()
            .rev()
            .find(|value| value.name.as_str() == name)
        {
            Some(value) => made.push_str(value.text.as_str())?,
            None => {
                made.push('$')?;
                made.push_str(name)?;
            }
        }
        made.push_str(rest)?;
    }
    Ok(made)
}

// The name at the front of a text, of letters and `_`, and what follows it.
fn name_of(text: &str) -> (&str, &str) {
    let length = text
        .bytes()
        .position(|byte| !byte.is_ascii_alphabetic() && byte != b'_')
        .unwrap_or(text.len());
    match (text.get(..length), text.get(length..)) {
        (Some(name), Some(rest)) => (name, rest),
        _ => ("", text),
    }
}

// BLOCKS

// How deep blocks may nest.
const DEPTH: u32 = 4;

/// The lines with each block repeated.
pub(crate) fn repeated(alloc: Global, lines: Vec<Line>) -> Result<Vec<Line>, (u32, Fault)> {
    let mut lines = lines;
    for _ in 0..DEPTH {
        if !lines.iter().any(|line| is_each(line.text.as_str())) {
            break;
        }
        lines = once_repeated(alloc, &lines)?;
    }
    Ok(lines)
}

fn is_each(text: &str) -> bool {
    text.starts_with("each ")
}

// A block: the number of its first line, its names, a value for each name in each row, and the lines that are repeated.
#[derive(Drop)]
struct Block {
    number: u32,
    names: Vec<String>,
    rows: Vec<Vec<String>>,
    lines: Vec<Line>,
    // how many blocks within it are open
    open: u32,
}

// The lines with each outermost block repeated.
fn once_repeated(alloc: Global, lines: &[Line]) -> Result<Vec<Line>, (u32, Fault)> {
    let mut made = Vec::new(alloc);
    let mut block: Option<Block> = None;
    for line in lines {
        block = match block {
            None => step_outside(alloc, line, &mut made),
            Some(block) => step_inside(alloc, line, block, &mut made),
        }
        .map_err(|fault| (line.number, fault))?;
    }
    match block {
        None => Ok(made),
        Some(block) => { Err((block.number, no_end(alloc))) }
    }
}

fn no_end(alloc: Global) -> Fault {
    match String::from_str(alloc, "no `end` of this block") {
        Ok(text) => Fault::Said(text),
        Err(_) => Fault::OutOfMemory,
    }
}

// A line outside of blocks: the block that it begins.
fn step_outside(alloc: Global, line: &Line, made: &mut Vec<Line>) -> Result<Option<Block>, Fault> {
    match line.text.as_str().strip_prefix("each ") {
        Some(rest) => Ok(Some(block_of(alloc, line.number, rest)?)),
        None => {
            made.push(line.with_values(alloc, &[])?)?;
            Ok(None)
        }
    }
}

// A line in a block: the block with it, or none where it ends the block.
fn step_inside(
    alloc: Global,
    line: &Line,
    block: Block,
    made: &mut Vec<Line>,
) -> Result<Option<Block>, Fault> {
    let mut block = block;
    let text = line.text.as_str();
    if text == "end" {
        if block.open == 0 {
            write_block(alloc, &block, made)?;
            return Ok(None);
        }
        block.open -= 1;
    }
    if is_each(text) {
        block.open = block.open.saturating_add(1);
    }
    match text.strip_prefix("row ") {
        Some(row) if block.open == 0 && block.lines.is_empty() => {
            let row = columns(alloc, row)?;
            if row.len() != block.names.len() {
                return said(format!(in alloc;
                    "{} values for {} names",
                    row.len(),
                    block.names.len()
                ));
            }
            block.rows.push(row)?;
        }
        _ => block.lines.push(line.with_values(alloc, &[])?)?,
    }
    Ok(Some(block))
}

// The block that is begun by these words.
fn block_of(alloc: Global, number: u32, text: &str) -> Result<Block, Fault> {
    let mut block = Block {
        number,
        names: Vec::new(alloc),
        rows: Vec::new(alloc),
        lines: Vec::new(alloc),
        open: 0,
    };
    if text.contains('|') {
        block.names = columns(alloc, text)?;
        return Ok(block);
    }
    let mut words = text.split_whitespace();
    if let Some(name) = words.next() {
        block.names.push(String::from_str(alloc, name)?)?;
    }
    for word in words {
        push_values(alloc, word, &mut block.rows)?;
    }
    Ok(block)
}

// The parts between bars, without the blanks around them.
fn columns(alloc: Global, text: &str) -> Result<Vec<String>, AllocError> {
    let mut parts = Vec::new(alloc);
    for part in text.split('|') {
        parts.push(String::from_str(alloc, part.trim())?)?;
    }
    Ok(parts)
}

// The greatest number of values of a range.
const LONGEST: u64 = 10_000;

// A row for each value of a word: each number of `A..B` or `A..B/STEP`, or the word itself.
fn push_values(alloc: Global, word: &str, rows: &mut Vec<Vec<String>>) -> Result<(), Fault> {
    let Some((first, rest)) = word.split_once("..") else {
        return Ok(push_row(alloc, String::from_str(alloc, word)?, rows)?);
    };
    let (last, step) = rest.split_once('/').unwrap_or((rest, "1"));
    match (read_number(first), read_number(last), read_number(step)) {
        (Some(first), Some(last), Some(step)) if step > 0 => {
            for count in 0..LONGEST {
                let at = first.saturating_add(count.saturating_mul(step));
                if at > last {
                    break;
                }
                push_row(alloc, format!(in alloc; "{at}")?, rows)?;
            }
            Ok(())
        }
        _ => said(format!(in alloc; "no range: {word}")),
    }
}

fn push_row(alloc: Global, value: String, rows: &mut Vec<Vec<String>>) -> Result<(), AllocError> {
    let mut row = Vec::new(alloc);
    row.push(value)?;
    rows.push(row)?;
    Ok(())
}

// Adds the lines of a block, once for each row.
fn write_block(alloc: Global, block: &Block, made: &mut Vec<Line>) -> Result<(), AllocError> {
    for row in &block.rows {
        let mut values = Vec::new(alloc);
        for (name, text) in block.names.iter().zip(row.iter()) {
            values.push(Value {
                name: name.clone()?,
                text: text.clone()?,
            })?;
        }
        for line in &block.lines {
            made.push(line.with_values(alloc, &values)?)?;
        }
    }
    Ok(())
}
