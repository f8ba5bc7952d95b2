// The lines of a scene, run in order.
use crate::called::{Call, Came, WHOLE, Wanted, differs};
use crate::fault::{Fault, said, with_values};
use crate::lines::{Line, Scene, repeated};
use crate::numbers::{read_number, read_slot, read_u32};
use crate::parts::{parts_of, read_bytes};
use crate::reading::{
    known, read_act, read_array, read_input, read_kind, read_picks, read_place, unknown,
};
use crate::stage::{Shape, Stage, held_in, read_from};
use stair_calls::Ends;
use stair_memrack::What;
use stair_monitor::read_event;
use stair_rack::{EventKind, Got};
use std::alloc::{AllocError, Global};

/// Plays a scene. Returns the line at which it went wrong, and how.
pub(crate) fn play(alloc: Global, scene: Scene) -> Result<(), (u32, Fault)> {
    let number = scene.number;
    let lines = repeated(alloc, scene.lines)?;
    let mut player = Player::new(alloc);
    for line in &lines {
        player.play_line(alloc, line)?;
    }
    player.judge(alloc)?;
    if player.has_wants {
        Ok(())
    } else {
        Err((number, no_want(alloc)))
    }
}

fn no_want(alloc: Global) -> Fault {
    match String::from_str(alloc, "a scene without a want") {
        Ok(text) => Fault::Said(text),
        Err(_) => Fault::OutOfMemory,
    }
}

// The last call: its line, its result, and what is wanted of it.
#[derive(Drop)]
struct Last {
    number: u32,
    // the values with which its line is repeated
    values: String,
    call: Call,
    came: Came,
    wanted: Wanted,
    is_judged: bool,
}

#[derive(Drop)]
struct Player {
    stage: Stage,
    ends: Ends,
    tally: Option<u64>,
    quota: Option<(EventKind, u64)>,
    last: Option<Last>,
    has_wants: bool,
}

impl Player {
    fn new(alloc: Global) -> Player {
        Player {
            stage: Stage::new(alloc),
            ends: WHOLE,
            tally: None,
            quota: None,
            last: None,
            has_wants: false,
        }
    }

    fn play_line(&mut self, alloc: Global, line: &Line) -> Result<(), (u32, Fault)> {
        let text = line.text.as_str();
        if text.contains('$') {
            return Err((line.number, unknown(alloc, text)));
        }
        let (word, rest) = text.split_once(' ').unwrap_or((text, ""));
        let done = if word == "=" {
            self.want(alloc, rest)
        } else {
            self.judge(alloc)?;
            self.step(alloc, line, word, rest)
        };
        done.map_err(|fault| (line.number, with_values(alloc, fault, line.values.as_str())))
    }

    // Compares the result of the last call with what was wanted, once.
    fn judge(&mut self, alloc: Global) -> Result<(), (u32, Fault)> {
        match &mut self.last {
            Some(last) if !last.is_judged => {
                last.is_judged = true;
                last.wanted.judge(alloc, &last.call, &last.came).map_err(|fault| (
                    last.number,
                    with_values(alloc, fault, last.values.as_str()),
                ))
            }
            _ => Ok(()),
        }
    }

    // Does a line that is no want.
    fn step(&mut self, alloc: Global, line: &Line, word: &str, rest: &str) -> Result<(), Fault> {
        match word {
            "array" => self.array(alloc, rest),
            "media" => self.media(alloc, rest),
            "crash" => self.crash(alloc, rest),
            "patch" => self.patch(alloc, rest),
            "copy" => self.copy(alloc, rest),
            "remember" => {
                let first = known(alloc, read_u32(rest), rest)?;
                self.stage.remember(alloc, first)
            }
            "before" => {
                let (at, act) = rest.split_once(' ').unwrap_or((rest, ""));
                let at = known(alloc, read_u32(at), at)?;
                self.add_act(alloc, at, act)
            }
            "with" => self.with(alloc, rest),
            "watch" => self.watch(alloc, rest),
            "call" => self.call(alloc, line, rest),
            "again" => self.again(alloc, line),
            _ => self.add_act(alloc, 0, line.text.as_str()),
        }
    }

    fn array(&mut self, alloc: Global, rest: &str) -> Result<(), Fault> {
        let (shape, text, is_filled) = known(alloc, read_array(alloc, rest)?, rest)?;
        self.stage.set_media(alloc, shape)?;
        self.stage.create(alloc, text.as_str(), is_filled)
    }

    fn media(&mut self, alloc: Global, rest: &str) -> Result<(), Fault> {
        let (n, sectors) = rest.split_once(' ').unwrap_or((rest, ""));
        let n = known(alloc, read_slot(n), rest)?;
        let sectors = known(alloc, read_u32(sectors), rest)?;
        let shape = Shape {
            n,
            r: 0,
            blocks: 0,
            sectors,
        };
        self.stage.set_media(alloc, shape)
    }

    fn crash(&mut self, alloc: Global, rest: &str) -> Result<(), Fault> {
        let picks = known(alloc, read_picks(alloc, rest)?, rest)?;
        self.stage.crash(alloc, picks)
    }

    fn patch(&mut self, alloc: Global, rest: &str) -> Result<(), Fault> {
        let ((slot, sector, at), bytes) = read_place(alloc, rest)?;
        self.stage.patch(alloc, slot, sector, at, &bytes)
    }

    fn copy(&mut self, alloc: Global, rest: &str) -> Result<(), Fault> {
        let words: Vec<&str> = rest.split_whitespace().collect(alloc)?;
        let [slot, from, to] = words.as_slice() else {
            return said(format!(in alloc; "copy SLOT FROM TO"));
        };
        let slot = known(alloc, read_slot(slot), rest)?;
        let from = known(alloc, read_u32(from), rest)?;
        let to = known(alloc, read_u32(to), rest)?;
        self.stage.copy(alloc, slot, from, to)
    }

    // Adds what happens before a call of the rack.
    fn add_act(&mut self, alloc: Global, at: u32, text: &str) -> Result<(), Fault> {
        let (word, rest) = text.split_once(' ').unwrap_or((text, ""));
        if word == "bad" {
            return self.add_bad(alloc, at, rest);
        }
        let what = known(alloc, read_act(word, rest, self.stage.shape.sectors), text)?;
        self.stage.add_act(alloc, at, what)
    }

    // Adds the damage of the cells of a stripe that a map marks.
    fn add_bad(&mut self, alloc: Global, at: u32, rest: &str) -> Result<(), Fault> {
        let (stripe, map) = rest.split_once(' ').unwrap_or((rest, ""));
        let stripe = known(alloc, read_u32(stripe), rest)?;
        let shape = self.stage.shape;
        let mut slot = 0;
        let mut row = 0;
        for letter in map.trim().chars() {
            match letter {
                'x' if slot < 32 => {
                    let sector = shape.sector_of(stripe, row);
                    self.stage
                        .add_act(alloc, at, What::Damage { slot, sector })?;
                }
                '.' => {}
                _ => return said(format!(in alloc; "no map: {map}")),
            }
            slot = slot.saturating_add(1);
            if slot >= shape.n {
                slot = 0;
                row = row.saturating_add(1);
            }
        }
        if slot == 0 && row == shape.r {
            Ok(())
        } else {
            said(format!(in alloc; "a map of another size"))
        }
    }

    // Sets how the streams of the next call behave.
    fn with(&mut self, alloc: Global, rest: &str) -> Result<(), Fault> {
        let words: Vec<&str> = rest.split_whitespace().collect(alloc)?;
        for pair in words.as_slice().chunks(2) {
            let [name, number] = pair else {
                return Err(unknown(alloc, rest));
            };
            let number = known(alloc, read_number(number), rest)?;
            match *name {
                "piece" => self.ends.piece = number as usize,
                "fails" => self.ends.fails_at = Some(number),
                "room" => self.ends.room = number.min(1_000_000) as usize,
                _ => return Err(unknown(alloc, rest)),
            }
        }
        Ok(())
    }

    // Adds a watcher of the next call.
    fn watch(&mut self, alloc: Global, rest: &str) -> Result<(), Fault> {
        let words: Vec<&str> = rest.split_whitespace().collect(alloc)?;
        match words.as_slice() {
            [name, limit] if *name == "tally" => {
                self.tally = Some(known(alloc, read_number(limit), rest)?);
            }
            [name, kind, limit] if *name == "quota" => {
                let kind = known(alloc, read_kind(kind), rest)?;
                self.quota = Some((kind, known(alloc, read_number(limit), rest)?));
            }
            _ => return Err(unknown(alloc, rest)),
        }
        Ok(())
    }

    fn call(&mut self, alloc: Global, line: &Line, rest: &str) -> Result<(), Fault> {
        let (words, input) = read_input(alloc, rest)?;
        let mut list = Vec::new(alloc);
        for part in parts_of(alloc, words)? {
            if !part.suffix.is_empty() {
                return Err(unknown(alloc, words));
            }
            list.push(part.text)?;
        }
        let call = Call {
            words: list,
            input,
            ends: self.ends,
            tally: self.tally.take(),
            quota: self.quota.take(),
        };
        self.ends = WHOLE;
        let came = call.make(alloc, &mut self.stage)?;
        self.last = Some(Last {
            number: line.number,
            values: line.values.clone()?,
            call,
            came,
            wanted: Wanted::nothing(alloc),
            is_judged: false,
        });
        Ok(())
    }

    // Makes the last call once more.
    fn again(&mut self, alloc: Global, line: &Line) -> Result<(), Fault> {
        let Some(
            Last {
                call,
                came: before,
                ..
            },
        ) = self.last.take()
        else {
            return said(format!(in alloc; "no call before"));
        };
        let came = call.make(alloc, &mut self.stage)?;
        if came.status != before.status {
            let (was, is) = (before.status, came.status);
            return said(format!(in alloc;
                "it was {}: {was}; it is {}: {is}",
                was.code(),
                is.code()
            ));
        }
        let mut wanted = Wanted::nothing(alloc);
        wanted.has_status = true;
        wanted.put = before.put;
        wanted.taken = Some(before.taken as u64);
        self.last = Some(Last {
            number: line.number,
            values: line.values.clone()?,
            call,
            came,
            wanted,
            is_judged: false,
        });
        Ok(())
    }

    // Compares with a want, or adds it to those of the last call.
    fn want(&mut self, alloc: Global, text: &str) -> Result<(), Fault> {
        let (word, rest) = text.split_once(' ').unwrap_or((text, ""));
        self.has_wants |= word != "any";
        match word {
            "sector" => return self.want_sector(alloc, rest),
            "part" => return self.want_part(alloc, rest),
            "kept" => {
                return if self.stage.is_kept(alloc)? {
                    Ok(())
                } else {
                    said(format!(in alloc; "the sectors are others than the remembered ones"))
                };
            }
            _ => {}
        }
        match &mut self.last {
            Some(last) if !last.is_judged => last.want(alloc, word, rest),
            _ => said(format!(in alloc; "a want of a call, and no call before it")),
        }
    }

    fn want_sector(&mut self, alloc: Global, rest: &str) -> Result<(), Fault> {
        let mut words = rest.splitn(3, ' ');
        let slot = known(alloc, read_slot(words.next().unwrap_or("")), rest)?;
        let sector = known(alloc, read_u32(words.next().unwrap_or("")), rest)?;
        let wanted = words.next().unwrap_or("");
        let rack = self.stage.ready(alloc)?;
        let (got, held) = read_from(rack, slot, sector);
        match (wanted, got) {
            ("bad", Got::Bad) | ("gone", Got::Gone) => Ok(()),
            ("bad" | "gone", _) => said(format!(in alloc; "wanted it {wanted}, and it is {got:?}")),
            (_, Got::Good) => {
                let mut bytes = read_bytes(alloc, wanted)?;
                if bytes.len() > 512 {
                    return said(format!(in alloc; "more bytes than a sector has"));
                }
                for _ in bytes.len()..512 {
                    bytes.push(0)?;
                }
                is_same(alloc, &bytes, &held)
            }
            _ => said(format!(in alloc; "it can't be read: {got:?}")),
        }
    }

    fn want_part(&mut self, alloc: Global, rest: &str) -> Result<(), Fault> {
        let ((slot, sector, at), bytes) = read_place(alloc, rest)?;
        let rack = self.stage.ready(alloc)?;
        let Some(held) = held_in(rack, slot, sector) else {
            return said(format!(in alloc; "it can't be read"));
        };
        match held.get(at..at.saturating_add(bytes.len())) {
            Some(part) => is_same(alloc, &bytes, part),
            None => said(format!(in alloc; "past the end of the sector")),
        }
    }
}

fn is_same(alloc: Global, wanted: &[u8], held: &[u8]) -> Result<(), Fault> {
    if wanted == held {
        Ok(())
    } else {
        said(differs(alloc, wanted, held))
    }
}

impl Last {
    // Compares with a want of the call, or adds it to those that are judged later.
    fn want(&mut self, alloc: Global, word: &str, rest: &str) -> Result<(), Fault> {
        let wanted = &mut self.wanted;
        match word {
            "puts" => wanted.put.extend_from_slice(&read_bytes(alloc, rest)?)?,
            "line" => {
                wanted.put.extend_from_slice(rest.as_bytes())?;
                wanted.put.push(b'\n')?;
            }
            "or" => wanted.others.push(read_bytes(alloc, rest)?)?,
            "tells" => wanted
                .told
                .push(known(alloc, read_event(rest.as_bytes()), rest)?)?,
            "any" => wanted.is_any = true,
            "takes" => wanted.taken = Some(known(alloc, read_number(rest), rest)?),
            "calls" => return is_number(alloc, rest, u64::from(self.came.calls)),
            "reads" => return is_number(alloc, rest, self.came.reads),
            "watchers" => return is_number(alloc, rest, self.came.watchers as u64),
            _ => return self.want_status(alloc, word, rest),
        }
        Ok(())
    }

    fn want_status(&mut self, alloc: Global, word: &str, line: &str) -> Result<(), Fault> {
        self.wanted.has_status = true;
        let code = match word {
            "done" => 0,
            _ => known(alloc, read_number(word), word)?,
        };
        let status = self.came.status;
        let text = format!(in alloc; "{status}")?;
        if u64::from(status.code()) == code && text.as_str() == line {
            Ok(())
        } else {
            said(format!(in alloc; "wanted {code}: {line}; it is {}: {text}", status.code()))
        }
    }
}

fn is_number(alloc: Global, wanted: &str, number: u64) -> Result<(), Fault> {
    let wanted = known(alloc, read_number(wanted), wanted)?;
    if wanted == number {
        Ok(())
    } else {
        said(format!(in alloc; "wanted {wanted}, and it is {number}"))
    }
}
