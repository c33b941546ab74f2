// Whole and part-wise lists of transfers.
use crate::sizes::{Sizes, read_sizes};
use maskrom::{
    Control, MaskRomOperation, PartStep, UploadError, UploadStep, WholeStart, WholeUpload,
    write_area,
};
use replay_answers::answer::{Answer, Tail};
use replay_answers::out::bytes;
use replay_answers::told::Told;
use replay_lines::buffer::{behind, first};
use replay_lines::tokens::Tokens;
use rule_number::RuleNumber;
use std::io::{self, Write};
use std::ops::ControlFlow;

// the most of an image whose list is asked for
const LISTED: usize = 4194304;

// more turns than any list of transfers takes
const TURNS: u64 = 1000000000;

// A list of transfers: how many, and what their text has left of its buffer.
#[derive(Drop)]
struct List<'a> {
    count: u64,
    text: &'a mut [u8],
}

impl List<'_> {
    // ` TYPE REQUEST VALUE INDEX BYTES`
    fn write(&mut self, control: Control, block: &[u8]) -> io::Result<()> {
        let Control {
            request_type,
            request,
            value,
            index,
            size,
        } = control;
        write!(self.text, " {request_type} {request} {value} {index} ")?;
        bytes(&mut self.text, first(size, block))
    }

    // What the buffer has no room for is left out: it has room for the longest list.
    fn put(&mut self, control: Control, block: &[u8]) {
        self.count = self.count.wrapping_add(1);
        let _ = self.write(control, block);
    }

    // A step's transfer, behind which there are more, or the finish. A refusal is its number.
    fn add(
        &mut self,
        step: Result<UploadStep, UploadError>,
        block: &[u8],
    ) -> Result<ControlFlow<()>, u8> {
        match step {
            Ok(UploadStep::WriteControl(control)) => {
                self.put(control, block);
                Ok(ControlFlow::Continue(()))
            }
            Ok(UploadStep::Finished) => Ok(ControlFlow::Break(())),
            Err(error) => Err(error.number()),
        }
    }
}

// What takes steps to a finish.
trait Steps {
    // A transfer is added to the list, and the finish is the break. A refusal is its number.
    fn step(&mut self, list: &mut List) -> Result<ControlFlow<()>, u8>;

    // The step after the finish must be the finish again: a transfer there is one too many.
    fn to_the_end(&mut self, list: &mut List) -> Result<(), u8> {
        // Stays bounded: a proved loop has to end.
        for _ in 0..TURNS {
            if self.step(list)?.is_break() {
                break;
            }
        }
        self.step(list)?;
        Ok(())
    }
}

// A whole upload on its way.
#[derive(Clone, Copy)]
struct Whole<'a> {
    record: WholeUpload,
    image: &'a [u8],
}

impl Steps for Whole<'_> {
    fn step(&mut self, list: &mut List) -> Result<ControlFlow<()>, u8> {
        let mut out = [0u8; 4096];
        let done = self.record.step(self.image, &mut out);
        self.record = done.next;
        list.add(done.step, &out)
    }
}

// A part-wise upload on its way: its record, and how much of the image was taken.
#[derive(Clone, Copy)]
struct Cut<'a> {
    record: MaskRomOperation,
    image: &'a [u8],
    taken: usize,
}

impl Cut<'_> {
    // Hands over what stands up to here and was not taken yet.
    fn part(&mut self, end: usize, list: &mut List) -> Result<(), u8> {
        let mut out = [0u8; 4096];
        let part = behind(self.taken, first(end, self.image));
        let done = self.record.part(part, &mut out);
        self.record = done.next;
        let taken = match done.step {
            Ok(PartStep::Taken(n)) => n,
            Ok(PartStep::WriteControl(n, control)) => {
                list.put(control, &out);
                n
            }
            Err(error) => return Err(error.number()),
        };
        self.taken = self.taken.wrapping_add(taken);
        Ok(())
    }

    // A part of this size, cut down to what is left of the image, is handed over until all of it is taken.
    fn hand_over(&mut self, size: usize, list: &mut List) -> Result<(), u8> {
        let end = self.taken.wrapping_add(size).min(self.image.len());
        // Stays bounded: a proved loop has to end.
        for _ in 0..TURNS {
            self.part(end, list)?;
            if self.taken >= end {
                break;
            }
        }
        Ok(())
    }
}

// Closed, step by step.
impl Steps for Cut<'_> {
    fn step(&mut self, list: &mut List) -> Result<ControlFlow<()>, u8> {
        let mut out = [0u8; 4096];
        let done = self.record.close(&mut out);
        self.record = done.next;
        list.add(done.step, &out)
    }
}

// What a list is told: how many transfers it has, and their text, at the front of the room; or the refusal.
fn list_answer(listed: Result<(), u8>, list: &List, room: usize) -> Answer {
    match listed {
        Ok(()) => {
            let len = room.wrapping_sub(list.text.len());
            Answer::with_tail(Told::of(0, &[list.count]), Tail::Text(len))
        }
        Err(number) => Answer::from(Told::of(number, &[])),
    }
}

fn list_whole(area: u16, image: &[u8], list: &mut List) -> Result<(), u8> {
    let WholeStart { start, upload } = write_area(area, image);
    start.map_err(|error| error.number())?;
    let mut whole = Whole {
        record: upload,
        image,
    };
    whole.to_the_end(list)
}

// `all`
// Stays with these parameters: the buffers are lent by main.
pub(crate) fn all(mut tokens: Tokens, data: &mut [u8], text: &mut [u8]) -> Option<Answer> {
    let area = tokens.u16()?;
    let len = tokens.data(LISTED, data)?;
    tokens.end()?;
    let room = text.len();
    let mut list = List { count: 0, text };
    let listed = list_whole(area, first(len, data), &mut list);
    Some(list_answer(listed, &list, room))
}

// The parts are handed over in order, over and over, up to the end of the pass in which the image was used up.
fn list_cut(area: u16, sizes: Sizes, image: &[u8], list: &mut List) -> Result<(), u8> {
    let mut cut = Cut {
        record: MaskRomOperation::new(area),
        image,
        taken: 0,
    };
    // Stays bounded: a proved loop has to end.
    for _ in 0..TURNS {
        for size in sizes {
            cut.hand_over(size, list)?;
        }
        if cut.taken >= image.len() {
            break;
        }
    }
    cut.to_the_end(list)
}

// `cut`
pub(crate) fn cut_up(mut tokens: Tokens, data: &mut [u8], text: &mut [u8]) -> Option<Answer> {
    let area = tokens.u16()?;
    let sizes = read_sizes(&mut tokens)?;
    let len = tokens.data(LISTED, data)?;
    tokens.end()?;
    let room = text.len();
    let mut list = List { count: 0, text };
    let listed = list_cut(area, sizes, first(len, data), &mut list);
    Some(list_answer(listed, &list, room))
}
