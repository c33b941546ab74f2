// One block of a deck dealt to the stand-in.
// Stays at (tag, first, count): they are the Rust's parameters.
ghost use Rattle.std.specs.Prelude.{◌≡◌, ◌*◌, ◌≤◌, [], length, replicate};
ghost use Rattle.protocol.specs.Commands.{read_lba_command, write_lba_command};
ghost use Rattle.operation_finish.specs.declared.Kind.TheVariants as kind;
ghost use Rattle.operation.specs.Record.{fresh};
ghost use Rattle.deck_block.specs.Reading.{Fits};
ghost use Rattle.deck.specs.Deal.{head, DealMeets};
ghost use Rattle.deck.specs.Dealing.{operate, load, load_of, carry_out, deal_block};
ghost use Rattle.deck.specs.Code.{room, plain_start};

use crate::verdict::{Dealt, loaded, operated, turned_away};
use deck_block::{Request, read_card};
use maskrom::{WholeUpload, write_area};
use mock::device::MockState;
use operation::starts::{
    capability, chip_info, erase_force, erase_lba, flash_id, flash_info, read_lba, reset_device,
    storage, switch_storage, write_lba,
};
use operation::steps::UsbOperation;
use rule_number::RuleNumber;
use run_operation::{run_whole, run_whole_write};
use run_upload::run_whole_upload;

// As many bytes as the longest image and the data of 16 sectors have.
fn filled(fill: u8) -> [u8; 8192]
    ensures { result ≡ replicate room fill }
{
    [fill; 8192]
}

// An operation without sector data.
// Stays: the device and each lent buffer are parameters of their own, here and in the runs, since a contract tells each before and after.
fn command(operation: UsbOperation, device: MockState, flash: &mut [u8], store: &[u8]) -> Dealt
    ensures { DealMeets result flash.new store.now (operate operation [] (head device flash.old store.now)) }
{
    let mut none = [0u8; 0];
    operated(run_whole(operation, device, flash, store, &mut none))
}

fn read_sectors(
    tag: u32,
    first: u32,
    count: u16,
    device: MockState,
    flash: &mut [u8],
    store: &[u8],
) -> Dealt
    requires { count ≤ 16 }
    ensures { DealMeets result flash.new store.now (operate (fresh kind.Read (read_lba_command tag first count)) (replicate (count * 512) 0) (head device flash.old store.now)) }
{
    let size = (count as usize) * 512;
    let mut data = filled(0);
    let start = read_lba(tag, first, size);
    operated(run_whole(start.operation, device, flash, store, &mut data[..size]))
}

fn write_sectors(
    tag: u32,
    first: u32,
    count: u16,
    fill: u8,
    device: MockState,
    flash: &mut [u8],
    store: &[u8],
) -> Dealt
    requires { count ≤ 16 }
    ensures { DealMeets result flash.new store.now (operate (fresh kind.Write (write_lba_command tag first count)) (replicate (count * 512) fill) (head device flash.old store.now)) }
{
    let size = (count as usize) * 512;
    let data = filled(fill);
    let start = write_lba(tag, first, size);
    operated(run_whole_write(start.operation, device, flash, store, &data[..size]))
}

// A whole upload that was just started.
fn upload(
    upload: WholeUpload,
    device: MockState,
    flash: &[u8],
    store: &mut [u8],
    image: &[u8],
) -> Dealt
    ensures { DealMeets result flash.now store.new (load_of upload image.now (head device flash.now store.old)) }
{
    loaded(run_whole_upload(upload, device, flash, store, image))
}

// An image of one byte over and over.
fn upload_filled(
    area: u16,
    length: u32,
    fill: u8,
    device: MockState,
    flash: &[u8],
    store: &mut [u8],
) -> Dealt
    requires { length ≤ 8192 }
    ensures { DealMeets result flash.now store.new (load area (replicate length fill) (head device flash.now store.old)) }
{
    let n = length as usize;
    let image = filled(fill);
    let start = write_area(area, &image[..n]);
    upload(start.upload, device, flash, store, &image[..n])
}

// The operation of a request that brings no data of its own: storage, where it is none of the others.
fn plain_start(tag: u32, request: Request) -> UsbOperation
    ensures { result ≡ plain_start tag request }
{
    // Stays a `match`: each request has a command of its own.
    match request {
        Request::ChipInfo => chip_info(tag),
        Request::FlashId => flash_id(tag),
        Request::FlashInfo => flash_info(tag),
        Request::Capability => capability(tag),
        Request::EraseLba(first, count) => erase_lba(tag, first, count),
        Request::EraseForce(first, count) => erase_force(tag, first, count),
        Request::ResetDevice(opcode) => reset_device(tag, opcode),
        Request::SwitchStorage(index) => switch_storage(tag, index),
        _ => storage(tag),
    }
}

// Carries out what a block asks for.
fn deal_request(
    tag: u32,
    request: Request,
    device: MockState,
    flash: &mut [u8],
    store: &mut [u8],
) -> Dealt
    requires { Fits request }
    ensures { DealMeets result flash.new store.new (carry_out tag request (head device flash.old store.old)) }
{
    // Stays a `match`: three requests bring data, and each is lent other buffers.
    match request {
        Request::ReadLba(first, count) => { read_sectors(tag, first, count, device, flash, store) }
        Request::WriteLba(first, count, fill) => {
            write_sectors(tag, first, count, fill, device, flash, store)
        }
        Request::WriteArea(area, length, fill) => {
            upload_filled(area, length, fill, device, flash, store)
        }
        _ => command(plain_start(tag, request), device, flash, store),
    }
}

// Deals the block that has this tag.
pub fn deal_block(
    tag: u32,
    block: &[u8],
    device: MockState,
    flash: &mut [u8],
    store: &mut [u8],
) -> Dealt
    ensures { DealMeets result flash.new store.new (deal_block tag block.now (head device flash.old store.old)) }
{
    let card = read_card(tag, block);
    let Ok(request) = card else {
        return turned_away(card.number(), device);
    };
    deal_request(tag, request, device, flash, store)
}
