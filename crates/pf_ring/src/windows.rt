ghost use Rattle.std.specs.Prelude.{◌≡◌, ◌+◌, ◌-◌, ◌*◌, ◌<◌, ◌≤◌, [], ◌∷◌, ◌++◌, length, take, drop, min, get_or};
ghost use Rattle.std.specs.VecDeque.{deque_len, deque_capacity};
ghost use Rattle.pf_base.specs.declared.TheConstants.{PAGE_SIZE};
ghost use Rattle.pf_machine.specs.Queue.{Segment, joined, last_room, topped_up, pieces, copied};
ghost use Rattle.pf_frame.specs.Live.{Live};
ghost use Rattle.pf_ring.specs.Door.{Holds, HoldsBoth, Affords};
ghost use Rattle.pf_ring.specs.Receive.{Receives};
ghost use Rattle.pf_ring.specs.Ring.{segment_of, shown};
ghost use Rattle.pf_ring.specs.Steps.{HasPlaces, Steps, IsPart, Puts, Copies, Cut, Shifts};
ghost use Rattle.pf_ring.specs.Windows.{Drops, bytes_in};

use crate::receive::{Laid, Receive};
use crate::ring::Window;
use pf_base::PAGE_SIZE;
use pf_frame::Frames;
use std::collections::VecDeque;

/// How many bytes may still be written behind the last window: none if it doesn't grow.
pub fn last_window_room(windows: &VecDeque<Window>) -> usize
    ensures room { (f : Live) → result ≡ last_room (shown f windows.now.items) }
    ensures most { result ≤ PAGE_SIZE }
{
    match windows.back() {
        Some(last) => last.room(),
        None => 0,
    }
}

/// Puts bytes at the end of at most so many slots: behind the last window, where it grows, and then in pieces of a
/// page.
#[inline(always)]
pub fn append<F: Frames>(windows: &mut VecDeque<Window>, slots: usize, door: &mut F, bytes: &[u8])
    requires door { Affords F.Frames door.old slots windows.old.items }
    requires places { HasPlaces windows.old slots }
    // There is room for all the bytes.
    requires room { let free = slots - deque_len windows.old in
        length bytes.now ≤ last_room (shown (F.live door.old) windows.old.items) + PAGE_SIZE * free }
    ensures puts { Steps F.Frames door.old door.new windows.old windows.new
        (λ old. Puts (length bytes.now) old old) }
    ensures fits { deque_len windows.new ≤ slots }
    ensures most { bytes_in windows.new.items ≤ PAGE_SIZE * deque_len windows.new }
    ensures segments { let before = shown (F.live door.old) windows.old.items in
        let free = slots - deque_len windows.old in
        shown (F.live door.new) windows.new.items
        ≡ topped_up before bytes.now ++ pieces free (drop (last_room before) bytes.now) }
{
    let topped = top_up(windows, door, bytes);
    let mut rest = &bytes[topped..];
    for _ in windows.len()..slots {
        if rest.is_empty() {
            break;
        }
        let (piece, more) = rest.split_at(rest.len().min(PAGE_SIZE));
        push_piece(windows, door, piece);
        rest = more;
    }
}

/// Writes bytes behind the last window, where it grows, as far as its page goes, and answers how many.
#[inline(always)]
pub fn top_up<F: Frames>(windows: &mut VecDeque<Window>, door: &mut F, bytes: &[u8]) -> usize
    requires door { Holds F.Frames door.old windows.old.items }
    ensures puts { Steps F.Frames door.old door.new windows.old windows.new (λ old. Puts result old old) }
    ensures used { deque_len windows.new ≡ deque_len windows.old }
    ensures number { result ≡ min (last_room (shown (F.live door.old) windows.old.items)) (length bytes.now) }
    ensures segments { shown (F.live door.new) windows.new.items
        ≡ topped_up (shown (F.live door.old) windows.old.items) bytes.now }
{
    let number = last_window_room(windows).min(bytes.len());
    if number > 0 {
        let last = windows.len() - 1;
        let window = windows[last];
        door.fill(
            window.frame,
            (window.from + window.len) as usize,
            &bytes[..number],
        );
        windows[last] = Window {
            len: window.len + number as u32,
            ..window
        };
    }
    number
}

/// Puts a window at the end that grows, with these bytes at the start of a frame of its own.
#[inline(always)]
fn push_piece<F: Frames>(windows: &mut VecDeque<Window>, door: &mut F, bytes: &[u8])
    requires door { Holds F.Frames door.old windows.old.items }
    requires piece { IsPart (length bytes.now) PAGE_SIZE }
    requires space { deque_len windows.old < deque_capacity windows.old }
    requires credit { (F.live door.old).held < (F.live door.old).reserved }
    // Behind no window: no byte of a frame that was live changes.
    ensures puts { Steps F.Frames door.old door.new windows.old windows.new (Puts (length bytes.now) []) }
    ensures used { deque_len windows.new ≡ deque_len windows.old + 1 }
    ensures segments { let piece : Segment =
        record { bytes = bytes.now; room = PAGE_SIZE - length bytes.now } in
        shown (F.live door.new) windows.new.items ≡ shown (F.live door.old) windows.old.items ++ piece ∷ [] }
{
    let frame = door.take();
    door.fill(frame, 0, bytes);
    windows.push_back_reserved(Window {
        frame,
        from: 0,
        len: bytes.len() as u32,
        grows: true,
    });
}

/// Moves the first bytes of the windows into the buffer, so many as it is long. A window that is emptied goes, and its frame
/// is released.
pub fn move_into<F: Frames>(windows: &mut VecDeque<Window>, door: &mut F, buffer: &mut [u8])
    requires door { Holds F.Frames door.old windows.old.items }
    requires has { length buffer.old ≤ bytes_in windows.old.items }
    ensures cut { Steps F.Frames door.old door.new windows.old windows.new (Cut (length buffer.old)) }
    ensures bytes { buffer.new
        ≡ take (length buffer.old) (joined (shown (F.live door.old) windows.old.items)) }
{
    let number = buffer.len();
    let mut laid = Laid { buffer };
    move_onto(windows, door, number, &mut laid);
}

/// Moves the first bytes of the windows into the buffer, so many as it is long, and drops those behind them, until so
/// many are gone in all. A window that is emptied goes, and its frame is released.
pub fn move_truncated<F: Frames>(
    windows: &mut VecDeque<Window>,
    door: &mut F,
    number: usize,
    buffer: &mut [u8],
)
    requires door { Holds F.Frames door.old windows.old.items }
    requires has { number ≤ bytes_in windows.old.items }
    requires fits { length buffer.old ≤ number }
    ensures cut { Steps F.Frames door.old door.new windows.old windows.new (Cut number) }
    ensures bytes { buffer.new
        ≡ take (length buffer.old) (joined (shown (F.live door.old) windows.old.items)) }
{
    let laid = buffer.len();
    move_into(windows, door, buffer);
    discard(windows, door, number - laid);
}

/// Drops so many bytes from the front of the windows. A window that is emptied goes, and its frame is released.
fn discard<F: Frames>(windows: &mut VecDeque<Window>, door: &mut F, number: usize)
    requires door { Holds F.Frames door.old windows.old.items }
    requires has { number ≤ bytes_in windows.old.items }
    ensures cut { Steps F.Frames door.old door.new windows.old windows.new (Cut number) }
{
    let mut done = 0;
    while done < number {
        done += discard_front(windows, door, number - done);
    }
}

/// Drops bytes from the front of the first window: as many as it has, but at most so many. Where these are all, it
/// goes, and its frame is released.
fn discard_front<F: Frames>(windows: &mut VecDeque<Window>, door: &mut F, most: usize) -> usize
    requires door { Holds F.Frames door.old windows.old.items }
    requires some { 0 < deque_len windows.old }
    requires any { 0 < most }
    ensures number { IsPart result most }
    ensures cut { Steps F.Frames door.old door.new windows.old windows.new (Cut result) }
{
    let first = windows[0];
    let number = (first.len as usize).min(most);
    cut_first(windows, door, first, number);
    number
}

/// Moves so many bytes from the front of the windows to what receives them and has room. A window that is emptied goes, and
/// its frame is released.
#[inline(always)]
pub fn move_onto<F: Frames, O: Receive>(
    windows: &mut VecDeque<Window>,
    door: &mut F,
    number: usize,
    out: &mut O,
)
    requires door { Holds F.Frames door.old windows.old.items }
    requires has { number ≤ bytes_in windows.old.items }
    requires room { number ≤ O.room out.old 0 }
    ensures cut { Steps F.Frames door.old door.new windows.old windows.new (Cut number) }
    ensures received { Receives O.Receive out.old out.new 0 number
        (take number (joined (shown (F.live door.old) windows.old.items))) }
{
    let mut done = 0;
    while done < number {
        done += move_front_onto(windows, door, number - done, done, out);
    }
}

/// Moves bytes from the front of the first window to what receives them, behind a place: as many as the window has, but at
/// most so many. Where these are all, it goes, and its frame is released.
// A take passes each slot once. A copy of all bytes and then a discard of them costs a small read some 20 instructions more.
#[inline(always)]
fn move_front_onto<F: Frames, O: Receive>(
    windows: &mut VecDeque<Window>,
    door: &mut F,
    most: usize,
    place: usize,
    out: &mut O,
) -> usize
    requires door { Holds F.Frames door.old windows.old.items }
    requires some { 0 < deque_len windows.old }
    requires any { 0 < most }
    requires room { most ≤ O.room out.old place }
    ensures number { IsPart result most }
    ensures cut { Steps F.Frames door.old door.new windows.old windows.new (Cut result) }
    ensures received { Receives O.Receive out.old out.new place (place + result)
        (take result (joined (shown (F.live door.old) windows.old.items))) }
{
    let first = windows[0];
    let part = front(door, first, most);
    let number = part.len();
    out.receive(place, part);
    cut_first(windows, door, first, number);
    number
}

/// The first bytes of a window: as many as it has, but at most so many.
fn front<F: Frames>(door: &F, window: Window, most: usize) -> &[u8]
    requires fact { F.fact door.now }
    requires is_live { 0 < (F.live door.now).count window.frame }
    requires within { window.from + window.len ≤ PAGE_SIZE }
    ensures { result.now ≡ take most (segment_of (F.live door.now) window).bytes }
{
    let number = (window.len as usize).min(most);
    door.view(window.frame, window.from as usize, number)
}

/// Drops so many bytes from the front of the first window, which is this one and has as many. Where these are all, it goes,
/// and its frame is released.
#[inline(always)]
fn cut_first<F: Frames>(windows: &mut VecDeque<Window>, door: &mut F, first: Window, number: usize)
    requires door { Holds F.Frames door.old windows.old.items }
    requires some { 0 < deque_len windows.old }
    requires first { first ≡ get_or windows.old.items 0 first }
    requires has { number ≤ first.len }
    ensures cut { Steps F.Frames door.old door.new windows.old windows.new (Cut number) }
{
    if number < first.len as usize {
        windows[0] = Window {
            from: first.from + number as u32,
            len: first.len - number as u32,
            ..first
        };
    } else {
        drop_front(windows, door);
    }
}

/// Drops the first window, and releases its frame.
fn drop_front<F: Frames>(windows: &mut VecDeque<Window>, door: &mut F)
    requires door { Holds F.Frames door.old windows.old.items }
    requires some { 0 < deque_len windows.old }
    ensures drops { Steps F.Frames door.old door.new windows.old windows.new Drops }
    ensures windows { windows.new.items ≡ drop 1 windows.old.items }
{
    if let Some(window) = windows.pop_front() {
        door.release(window.frame);
    }
}

/// Drops all windows, and releases the frame of each.
pub fn clear<F: Frames>(windows: &mut VecDeque<Window>, door: &mut F)
    requires door { Holds F.Frames door.old windows.old.items }
    ensures drops { Steps F.Frames door.old door.new windows.old windows.new Drops }
    ensures empty { windows.new.items ≡ [] }
{
    while !windows.is_empty() {
        drop_front(windows, door);
    }
}

/// Puts windows at the end of the sink's that show the first bytes of the source's: at most so many bytes, and at most
/// so many windows that the sink has as many as it has slots. Answers how many bytes they show.
///
/// Each of them is one more on its frame. None of them grows.
pub fn share<F: Frames>(
    source: &VecDeque<Window>,
    sink: &mut VecDeque<Window>,
    slots: usize,
    door: &mut F,
    n: usize,
) -> usize
    requires door { HoldsBoth F.Frames door.old source.now.items sink.old.items slots }
    requires places { HasPlaces sink.old slots }
    ensures copies { Steps F.Frames door.old door.new sink.old sink.new (Copies result source.now.items) }
    ensures fits { deque_len sink.new ≤ slots }
    ensures segments { let free = slots - deque_len sink.old in
        shown (F.live door.new) sink.new.items
        ≡ shown (F.live door.old) sink.old.items ++ copied free n (shown (F.live door.old) source.now.items) }
{
    let mut done = 0;
    let most = source.len().min(slots - sink.len());
    for place in 0..most {
        if done == n {
            break;
        }
        let window = source[place];
        let number = (window.len as usize).min(n - done);
        door.share(window.frame);
        sink.push_back_reserved(Window {
            len: number as u32,
            grows: false,
            ..window
        });
        done += number;
    }
    done
}

/// Moves the first bytes of the source's windows to windows at the end of the sink's: at most so many bytes, and at most
/// so many windows that the sink has as many as it has slots. Answers how many bytes they are.
///
/// A window whose bytes all go goes itself, and its frame is not counted again; one that is cut keeps its frame, which is
/// counted once more. None of those that come grows.
pub fn shift<F: Frames>(
    source: &mut VecDeque<Window>,
    sink: &mut VecDeque<Window>,
    slots: usize,
    door: &mut F,
    n: usize,
) -> usize
    requires door { HoldsBoth F.Frames door.old source.old.items sink.old.items slots }
    requires places { HasPlaces sink.old slots }
    ensures shifts { Steps F.Frames door.old door.new sink.old sink.new
        (Shifts result source.old.items source.new.items) }
    ensures source_space { deque_capacity source.new ≡ deque_capacity source.old }
    ensures fits { deque_len sink.new ≤ slots }
    ensures segments { let free = slots - deque_len sink.old in
        shown (F.live door.new) sink.new.items
        ≡ shown (F.live door.old) sink.old.items ++ copied free n (shown (F.live door.old) source.old.items) }
{
    let mut done = 0;
    let places = source.len().min(slots - sink.len());
    for _ in 0..places {
        if done == n {
            break;
        }
        let first = source[0];
        let part = (first.len as usize).min(n - done);
        if (first.len as usize) > part {
            door.share(first.frame);
            source[0] = Window {
                from: first.from + part as u32,
                len: first.len - part as u32,
                ..first
            };
        } else {
            let _ = source.pop_front();
        }
        let mut sent = first;
        sent.len = part as u32;
        sent.grows = false;
        sink.push_back_reserved(sent);
        done += part;
    }
    done
}
