// "Uploads": the current upload, stepped by hand.
use crate::held::Held;
use maskrom::{Control, UploadError, UploadStep, WholeStart, WholeUpload, write_area};
use replay_answers::answer::Answer;
use replay_answers::told::Told;
use replay_lines::buffer::{copy, first, first_mut};
use replay_lines::data::IMAGE;
use replay_lines::tokens::Tokens;

// The current upload, where there is one, and the buffer that its image stands in.
#[derive(Drop)]
pub struct Uploads<'a> {
    pub current: Option<Held<WholeUpload>>,
    pub image: &'a mut [u8],
}

fn control_told(control: Control) -> Told {
    let Control {
        request_type,
        request,
        value,
        index,
        size,
    } = control;
    Told::of(
        0,
        &[
            4,
            u64::from(request_type),
            u64::from(request),
            u64::from(value),
            u64::from(index),
            size as u64,
        ],
    )
}

fn step_told(step: Result<UploadStep, UploadError>) -> Told {
    match step {
        Ok(UploadStep::WriteControl(control)) => control_told(control),
        Ok(UploadStep::Finished) => Told::of(0, &[3]),
        Err(error) => Told::numbered(error),
    }
}

impl Uploads<'_> {
    // `upl`
    pub fn start(&mut self, mut tokens: Tokens, data: &mut [u8]) -> Option<Answer> {
        self.current = None;
        let area = tokens.u16()?;
        let length = tokens.data(IMAGE, data)?;
        tokens.end()?;
        let image = first(length, data);
        copy(image, self.image);
        let WholeStart { start, upload } = write_area(area, image);
        if start.is_ok() {
            self.current = Some(Held {
                record: upload,
                length,
            });
        }
        Some(Answer::from(Told::numbered(start)))
    }

    // `ust`
    pub fn step(&mut self, mut tokens: Tokens, room: &mut [u8]) -> Option<Answer> {
        let Held { record, length } = self.current?;
        let len = tokens.room(room)?;
        tokens.end()?;
        let done = record.step(first(length, self.image), first_mut(len, room));
        self.current = Some(Held {
            record: done.next,
            length,
        });
        Some(Answer::from(step_told(done.step)).with_room(len))
    }
}
