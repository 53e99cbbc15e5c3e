//! Services that callers are lent, and what is told of seats, of receipts and of an end.

ghost use Rattle.pf_depot.specs.Blanks.{IsBlankOf};

use pf_base::{ByteString, Reply, Step};
use pf_service::{CloseFault, Gate, NoGate, Seat, Service, ServiceFault, Transcript, Transcripts};
use pf_service_fixture::{
    Closed, Size, blank, closed, makes_all, seat_if, service_of, spawn, write,
};
use std::alloc::{AllocError, Global};
use std::marker::Brand;
use std::process::Abort;
use std::sync::Wait;
use std::sync::ledger::{Blank, Ledger};
use std::test::Fail;

// A service that tells nobody of anything.
pub(crate) type Plain<C, H> = Service<Global, NoGate, C, H>;

// A process fills its pipe with bytes 61, and exits.
pub(crate) fn steps_of_red(alloc: Global) -> Result<Vec<Step>, AllocError> {
    let mut steps = Vec::with_capacity(alloc, 4)?;
    steps.push(spawn())?;
    steps.push(Step::Pipe {
        pid: 1,
        nonblock: true,
    })?;
    steps.push(write(alloc, 0x61, 65_536)?)?;
    steps.push(Step::Exit { pid: 1 })?;
    Ok(steps)
}

// Another writes a byte 7a, and reads as many as there are.
pub(crate) fn steps_of_blue(alloc: Global) -> Result<Vec<Step>, AllocError> {
    let mut steps = Vec::with_capacity(alloc, 4)?;
    steps.push(spawn())?;
    steps.push(Step::Pipe {
        pid: 1,
        nonblock: true,
    })?;
    steps.push(write(alloc, 0x7A, 1)?)?;
    steps.push(Step::Read {
        pid: 1,
        fd: 0,
        n: 100,
    })?;
    Ok(steps)
}

// What callers on one thread do at a service, which they are lent.
pub(crate) trait Callers<G: Gate> {
    // What they do, and the seats that the service is closed with.
    fn work<C: Ledger, H: Ledger, R: Wait + Abort>(
        &self,
        rt: &R,
        alloc: Global,
        service: &Service<Global, G, C, H>,
    ) -> Result<Vec<Seat>, Fail>;
}

// Opens a service, which the callers are lent, and closes it with the seats that they leave.
pub(crate) fn serve<G: Gate + Drop, V: Callers<G>, R: Wait + Abort>(
    rt: &R,
    alloc: Global,
    size: Size,
    gate: G,
    callers: &V,
) -> Closed {
    serve_named::<Brand, Brand, G, V, R>(rt, alloc, size, gate, callers, blank(), blank())
}

fn serve_named<C: Ledger, H: Ledger, G: Gate + Drop, V: Callers<G>, R: Wait + Abort>(
    rt: &R,
    alloc: Global,
    size: Size,
    gate: G,
    callers: &V,
    credits: Blank,
    held: Blank,
) -> Closed
    requires blanks { IsBlankOf C.name C.parts credits × IsBlankOf H.name H.parts held }
{
    let service = service_of::<G, C, H>(alloc, size, gate, credits, held)?;
    let seats = callers.work(rt, alloc, &service);
    closed(service, seats)
}

// What callers do at two services, which they are lent. The second has a gate.
pub(crate) trait CallersOfTwo<G: Gate> {
    // What they do, and the seats that the first service is closed with.
    fn work<C: Ledger, H: Ledger, D: Ledger, L: Ledger, R: Wait + Abort>(
        &self,
        rt: &R,
        alloc: Global,
        first: &Plain<C, H>,
        second: &Service<Global, G, D, L>,
    ) -> Result<Vec<Seat>, Fail>;
}

// Opens two services, which the callers are lent, and closes the first with the seats that they leave.
pub(crate) fn serve_two<G: Gate + Drop, V: CallersOfTwo<G>, R: Wait + Abort>(
    rt: &R,
    alloc: Global,
    first: Size,
    second: Size,
    gate: G,
    callers: &V,
) -> Closed {
    serve_two_named::<Brand, Brand, Brand, Brand, G, V, R>(
        rt,
        alloc,
        first,
        second,
        gate,
        callers,
        blank(),
        blank(),
        blank(),
        blank(),
    )
}

fn serve_two_named<
    C: Ledger,
    H: Ledger,
    D: Ledger,
    L: Ledger,
    G: Gate + Drop,
    V: CallersOfTwo<G>,
    R: Wait + Abort,
>(
    rt: &R,
    alloc: Global,
    first: Size,
    second: Size,
    gate: G,
    callers: &V,
    credits: Blank,
    held: Blank,
    spare: Blank,
    lent: Blank,
) -> Closed
    requires blanks { IsBlankOf C.name C.parts credits × IsBlankOf H.name H.parts held }
    requires their_blanks { IsBlankOf D.name D.parts spare × IsBlankOf L.name L.parts lent }
{
    let other = service_of::<G, D, L>(alloc, second, gate, spare, lent)?;
    let service = match service_of::<NoGate, C, H>(alloc, first, NoGate, credits, held) {
        Ok(service) => service,
        Err(fail) => return closed(other, Err(fail)),
    };
    let seats = callers.work(rt, alloc, &service, &other);
    drop(other.close(Vec::new(alloc)));
    closed(service, seats)
}

// A receipt or a seat is dear to prove where it is let go at several ways out, or in a loop. So loops have a seat lent,
// and what is let go is handed to a function with one way out.

// Why an end was refused, if it was.
pub(crate) fn refused(closed: Result<Transcripts, CloseFault>) -> Option<CloseFault> {
    match &closed {
        Ok(_) => None,
        Err(fault) => Some(*fault),
    }
}

// Whether no question of a number is answered, for this reason.
pub(crate) fn no_answer<G: Gate, C: Ledger, H: Ledger, R: Wait>(
    rt: &R,
    service: &Service<Global, G, C, H>,
    ns: u32,
    fault: ServiceFault,
) -> bool {
    service.can_go_on(rt, ns, 1).err() == Some(fault)
        && service.next_to_go_on(rt, ns, 0).err() == Some(fault)
        && service.readiness(rt, ns, 1, 0).err() == Some(fault)
}

// Why a seat was refused, if it was.
pub(crate) fn no_seat(seat: Result<Seat, ServiceFault>) -> Option<ServiceFault> {
    match &seat {
        Ok(_) => None,
        Err(fault) => Some(*fault),
    }
}

// Whether a seat is this one of this namespace, and keeps nothing yet.
pub(crate) fn is_new(seat: Result<Seat, ServiceFault>, ns: u32, number: u32) -> bool {
    match &seat {
        Ok(seat) => seat.ns() == ns && seat.number() == number && seat.events().is_empty(),
        Err(_) => false,
    }
}

// Makes the steps in turn, many times, until one is refused; whether none is.
pub(crate) fn repeats<R: Wait, C: Ledger, H: Ledger>(
    rt: &R,
    service: &Plain<C, H>,
    seat: &mut Seat,
    steps: &[Step],
    times: u32,
) -> bool {
    for _ in 0..times {
        if !makes_all(rt, service, seat, steps) {
            return false;
        }
    }
    true
}

// Makes the steps in turn, many times. No seat comes back where one was refused.
pub(crate) fn repeat<R: Wait, C: Ledger, H: Ledger>(
    rt: &R,
    service: &Plain<C, H>,
    mut seat: Seat,
    steps: &[Step],
    times: u32,
) -> Option<Seat> {
    let all = repeats(rt, service, &mut seat, steps, times);
    seat_if(all, seat)
}

// The seats that came back, where all did.
pub(crate) fn all_of(alloc: Global, back: Vec<Option<Seat>>) -> Result<Vec<Seat>, Fail> {
    let mut seats = Vec::with_capacity(alloc, back.len())?;
    for seat in back {
        seats.push(seat.ok_or("no seat")?)?;
    }
    Ok(seats)
}

// Seats behind others.
fn append(seats: &mut Vec<Seat>, others: Vec<Seat>) -> Result<(), AllocError> {
    for seat in others {
        seats.push(seat)?;
    }
    Ok(())
}

// All seats that came back in parts, where all did.
pub(crate) fn all_of_parts(alloc: Global, back: Vec<Option<Vec<Seat>>>) -> Result<Vec<Seat>, Fail> {
    let mut seats = Vec::new(alloc);
    for own in back {
        append(&mut seats, own.ok_or("no seats")?)?;
    }
    Ok(seats)
}

pub(crate) fn replies_are<R: Abort>(rt: &R, transcript: &Transcript, replies: &[Reply]) {
    let entries = transcript.entries();
    assert_eq!(rt; entries.len(), replies.len());
    for (entry, reply) in entries.iter().zip(replies) {
        assert_eq!(rt; &entry.1, reply);
    }
}

// The two tenants' transcripts: no frame shows what was in it before.
pub(crate) fn told_alone<R: Abort>(
    rt: &R,
    alloc: Global,
    transcripts: &Transcripts,
) -> Result<(), Fail> {
    let each = transcripts.as_slice();
    assert_eq!(rt; each.len(), 2);
    let red = [
        Reply::Pid(1),
        Reply::Fds(0, 1),
        Reply::Num(65_536),
        Reply::Num(0),
    ];
    replies_are(rt, &each[0], &red);
    let byte = Reply::Bytes(ByteString::from_slice(alloc, b"z")?);
    let blue = [Reply::Pid(1), Reply::Fds(0, 1), Reply::Num(1), byte];
    replies_are(rt, &each[1], &blue);
    Ok(())
}
