//! Namespaces that come and go at a service.

ghost use Rattle.pf_depot.specs.Blanks.{IsBlankOf};

use crate::services::{
    Callers, Plain, all_of_parts, no_seat, replies_are, serve, steps_of_blue, steps_of_red,
};
use pf_base::{AdmitFault, ByteString, Config, Reply, RetireFault, Step};
use pf_service::{NoGate, Seat, ServiceFault};
use pf_service_fixture::{
    Closed, RED, Size, blank, both, closed, config_of, make, makes, service_of, spawn,
};
use std::alloc::Global;
use std::marker::Brand;
use std::process::Abort;
use std::sync::Wait;
use std::sync::ledger::{Blank, Ledger};
use std::test::Fail;
use std::thread;
use std::thread::Threads;

const TOO_MANY: Option<AdmitFault> = Some(AdmitFault::TooManyNamespaces);

fn no_room(slack: u32) -> Option<AdmitFault> {
    Some(AdmitFault::NoRoom { slack })
}

// So many namespaces, and frames besides that nobody has reserved.
fn roomy(namespaces: u8, slack: u8) -> Size {
    Size { namespaces, slack }
}

// One that lives from the start, with all frames but one. One comes that wants two, one that has one, and one more. The
// second goes once it has no process, and then its frame is another's.
struct OneComesAndGoes;

impl Callers<NoGate> for OneComesAndGoes {
    fn work<C: Ledger, H: Ledger, R: Wait + Abort>(
        &self,
        rt: &R,
        alloc: Global,
        service: &Plain<C, H>,
    ) -> Result<Vec<Seat>, Fail> {
        let (one, two) = (config_of(1).ok_or("one")?, config_of(2).ok_or("two")?);
        assert_eq!(rt; service.admit(rt, two, alloc).err(), no_room(1));
        let none = no_seat(service.seat(rt, 1));
        assert_eq!(rt; none, Some(ServiceFault::NoSuchNamespace));
        assert_eq!(rt;
            service.retire(rt, 1).err(),
            Some(RetireFault::NoSuchNamespace)
        );
        let ns = service.admit(rt, one, alloc)?;
        assert_eq!(rt; ns, 1);
        assert_eq!(rt; service.admit(rt, one, alloc).err(), no_room(0));
        let mut seat = service.seat(rt, ns)?;
        assert_eq!(rt; service.call(rt, &mut seat, &spawn())?.reply, Reply::Pid(1));
        assert_eq!(rt;
            service.retire(rt, ns).err(),
            Some(RetireFault::Alive { processes: 1 })
        );
        let exit = Step::Exit { pid: 1 };
        assert_eq!(rt; service.call(rt, &mut seat, &exit)?.reply, Reply::Num(0));
        service.retire(rt, ns)?;
        is_gone(rt, alloc, service, ns, &mut seat);
        assert_eq!(rt; service.admit(rt, one, alloc)?, 2);
        let mut seats = Vec::new(alloc);
        seats.push(seat)?;
        Ok(seats)
    }
}

// What is told at a namespace that is retired, and that nothing is logged there.
fn is_gone<C: Ledger, H: Ledger, R: Wait + Abort>(
    rt: &R,
    alloc: Global,
    service: &Plain<C, H>,
    ns: u32,
    seat: &mut Seat,
) {
    let events = seat.events().len();
    let step = spawn();
    let mut receipts = Vec::new(alloc);
    assert_eq!(rt;
        service.retire(rt, ns).err(),
        Some(RetireFault::NoSuchNamespace)
    );
    assert_eq!(rt; no_seat(service.seat(rt, ns)), Some(ServiceFault::Gone));
    assert_eq!(rt;
        service.call(rt, seat, &step).err(),
        Some(ServiceFault::Gone)
    );
    assert_eq!(rt;
        service.call_waiting(rt, seat, &step, &mut receipts).err(),
        Some(ServiceFault::Gone)
    );
    assert_eq!(rt; (seat.events().len(), receipts.len()), (events, 0));
}

#[test]
fn one_that_went_is_gone(rt: HostRuntime) -> Result<(), Fail> {
    let transcripts = serve(&rt, rt.alloc(), roomy(1, 1), NoGate, &OneComesAndGoes)??;
    let each = transcripts.as_slice();
    assert_eq!(rt; each.len(), 3);
    replies_are(&rt, &each[0], &[]);
    replies_are(&rt, &each[1], &[Reply::Pid(1), Reply::Num(0)]);
    replies_are(&rt, &each[2], &[]);
    Ok(())
}

// One fills its frames, exits and goes. Another comes, to whom the same frames are lent.
struct FramesOfOneWhoWent;

impl Callers<NoGate> for FramesOfOneWhoWent {
    fn work<C: Ledger, H: Ledger, R: Wait + Abort>(
        &self,
        rt: &R,
        alloc: Global,
        service: &Plain<C, H>,
    ) -> Result<Vec<Seat>, Fail> {
        let red = make(rt, service, service.seat(rt, RED)?, &steps_of_red(alloc)?);
        service.retire(rt, RED)?;
        let ns = service.admit(rt, config_of(16).ok_or("limits")?, alloc)?;
        let blue = make(rt, service, service.seat(rt, ns)?, &steps_of_blue(alloc)?);
        both(alloc, red, blue)
    }
}

#[test]
fn who_comes_reads_nothing_of_one_who_went(rt: HostRuntime) -> Result<(), Fail> {
    let alloc = rt.alloc();
    let transcripts = serve(&rt, alloc, roomy(1, 0), NoGate, &FramesOfOneWhoWent)??;
    let byte = Reply::Bytes(ByteString::from_slice(alloc, b"z")?);
    let told = [Reply::Pid(1), Reply::Fds(0, 1), Reply::Num(1), byte];
    replies_are(&rt, transcripts.as_slice().get(1).ok_or("none")?, &told);
    Ok(())
}

// 64 live from the start, and one more has room.
struct SixtyFour;

impl Callers<NoGate> for SixtyFour {
    fn work<C: Ledger, H: Ledger, R: Wait + Abort>(
        &self,
        rt: &R,
        alloc: Global,
        service: &Plain<C, H>,
    ) -> Result<Vec<Seat>, Fail> {
        let (one, two) = (config_of(1).ok_or("one")?, config_of(2).ok_or("two")?);
        assert_eq!(rt; service.admit(rt, one, alloc).err(), TOO_MANY);
        // too many is told before no room
        assert_eq!(rt; service.admit(rt, two, alloc).err(), TOO_MANY);
        service.retire(rt, 63)?;
        assert_eq!(rt; service.admit(rt, one, alloc)?, 64);
        assert_eq!(rt; service.admit(rt, one, alloc).err(), TOO_MANY);
        Ok(Vec::new(alloc))
    }
}

#[test]
fn sixty_four_live_at_once(rt: HostRuntime) -> Result<(), Fail> {
    let transcripts = serve(&rt, rt.alloc(), roomy(64, 1), NoGate, &SixtyFour)??;
    assert_eq!(rt; transcripts.as_slice().len(), 65);
    Ok(())
}

// The number of one that is to come with so many frames, or why it doesn't.
fn ask_for<C: Ledger, H: Ledger, R: Wait>(
    rt: &R,
    alloc: Global,
    service: &Plain<C, H>,
    reserve: u32,
) -> Result<u32, AdmitFault> {
    let Some(config) = config_of(reserve) else {
        return Err(AdmitFault::NoMemory);
    };
    service.admit(rt, config, alloc)
}

// Two that ask for more of 200 frames than is left, one comes behind each, and then all are reserved.
struct LargeOnes;

impl Callers<NoGate> for LargeOnes {
    fn work<C: Ledger, H: Ledger, R: Wait + Abort>(
        &self,
        rt: &R,
        alloc: Global,
        service: &Plain<C, H>,
    ) -> Result<Vec<Seat>, Fail> {
        assert_eq!(rt; ask_for(rt, alloc, service, 201).err(), no_room(200));
        assert_eq!(rt; ask_for(rt, alloc, service, 150)?, 0);
        assert_eq!(rt; ask_for(rt, alloc, service, 51).err(), no_room(50));
        assert_eq!(rt; ask_for(rt, alloc, service, 50)?, 1);
        assert_eq!(rt; ask_for(rt, alloc, service, 1).err(), no_room(0));
        Ok(Vec::new(alloc))
    }
}

#[test]
fn large_ones_have_room_as_far_as_there_is(rt: HostRuntime) -> Result<(), Fail> {
    let transcripts = serve(&rt, rt.alloc(), roomy(0, 200), NoGate, &LargeOnes)??;
    assert_eq!(rt; transcripts.as_slice().len(), 2);
    Ok(())
}

// A namespace of these limits comes, makes these steps, and leaves its seat. Nobody comes where one was refused.
fn come<C: Ledger, H: Ledger, R: Wait>(
    rt: &R,
    alloc: Global,
    service: &Plain<C, H>,
    config: Config,
    steps: &[Step],
) -> Option<Seat> {
    let ns = service.admit(rt, config, alloc).ok()?;
    make(rt, service, service.seat(rt, ns).ok()?, steps)
}

// The process of a seat's namespace exits, and the namespace goes.
fn go<C: Ledger, H: Ledger, R: Wait>(rt: &R, service: &Plain<C, H>, seat: &mut Seat) -> Option<()> {
    if !makes(rt, service, seat, &Step::Exit { pid: 1 }) {
        return None;
    }
    service.retire(rt, seat.ns()).ok()
}

// A process with a pipe that has a byte, and with a file.
fn pipe_and_file(alloc: Global) -> Result<Vec<Step>, Fail> {
    let mut steps = steps_of_blue(alloc)?;
    steps.pop();
    steps.push(Step::Mkfifo {
        pid: 1,
        path: ByteString::from_slice(alloc, b"/f")?,
        mode: 0o600,
    })?;
    Ok(steps)
}

// 1,024 come in turn, where 64 have room: from the 65th on, the one that has been there longest goes first.
struct AllNumbers;

impl Callers<NoGate> for AllNumbers {
    fn work<C: Ledger, H: Ledger, R: Wait + Abort>(
        &self,
        rt: &R,
        alloc: Global,
        service: &Plain<C, H>,
    ) -> Result<Vec<Seat>, Fail> {
        let (one, steps) = (config_of(1).ok_or("one")?, pipe_and_file(alloc)?);
        let mut seats = Vec::new(alloc);
        for number in 0..1_024usize {
            if let Some(oldest) = number.checked_sub(64) {
                let seat = seats.get_mut(oldest).ok_or("no seat")?;
                go(rt, service, seat).ok_or("it stays")?;
            }
            let seat = come(rt, alloc, service, one, &steps).ok_or("nobody came")?;
            assert_eq!(rt; seat.ns() as usize, number);
            seats.push(seat)?;
        }
        assert_eq!(rt; service.admit(rt, one, alloc).err(), TOO_MANY);
        assert_eq!(rt;
            service.retire(rt, 1_000).err(),
            Some(RetireFault::Alive { processes: 1 })
        );
        Ok(seats)
    }
}

#[test]
fn a_thousand_come_and_go(rt: HostRuntime) -> Result<(), Fail> {
    let transcripts = serve(&rt, rt.alloc(), roomy(0, 64), NoGate, &AllNumbers)??;
    assert_eq!(rt; transcripts.as_slice().len(), 1_024);
    for (number, transcript) in transcripts.as_slice().iter().enumerate() {
        let entries = if number < 960 { 5 } else { 4 };
        assert_eq!(rt; transcript.entries().len(), entries);
    }
    Ok(())
}

// What a namespace comes for.
#[derive(Drop)]
struct Job<'a> {
    alloc: Global,
    config: Config,
    steps: &'a [Step],
}

// So many come and go in turn, and leave their seats.
fn come_and_go<C: Ledger, H: Ledger, R: Wait>(
    rt: &R,
    service: &Plain<C, H>,
    job: &Job<'_>,
    times: u32,
) -> Option<Vec<Seat>> {
    let mut seats = Vec::new(job.alloc);
    for _ in 0..times {
        seats.push(come_and_go_once(rt, service, job)?).ok()?;
    }
    Some(seats)
}

// One comes and goes, and leaves its seat.
fn come_and_go_once<C: Ledger, H: Ledger, R: Wait>(
    rt: &R,
    service: &Plain<C, H>,
    job: &Job<'_>,
) -> Option<Seat> {
    let mut seat = come(rt, job.alloc, service, job.config, job.steps)?;
    go(rt, service, &mut seat)?;
    Some(seat)
}

// Four threads on which 50 namespaces each come, work and go.
fn on_four_threads<C: Ledger + Send + Sync, H: Ledger + Send + Sync, R: Threads + Wait + Sync>(
    rt: &R,
    alloc: Global,
    service: &Plain<C, H>,
    job: &Job<'_>,
) -> Result<Vec<Seat>, Fail> {
    let times = Vec::from_elem(alloc, 50u32, 4)?;
    let back = thread::map_vec(
        rt,
        times,
        &|times: u32| come_and_go(rt, service, job, times),
    )?;
    all_of_parts(alloc, back)
}

fn two_hundred<C: Ledger + Send + Sync, H: Ledger + Send + Sync, R: Threads + Wait + Sync>(
    rt: &R,
    alloc: Global,
    service: &Plain<C, H>,
) -> Result<Vec<Seat>, Fail> {
    let steps = steps_of_blue(alloc)?;
    let job = Job {
        alloc,
        config: config_of(2).ok_or("two")?,
        steps: &steps,
    };
    on_four_threads(rt, alloc, service, &job)
}

fn four_threads_named<C: Ledger + Send + Sync, H: Ledger + Send + Sync, R: Threads + Wait + Sync>(
    rt: &R,
    alloc: Global,
    credits: Blank,
    held: Blank,
) -> Closed
    requires blanks { IsBlankOf C.name C.parts credits × IsBlankOf H.name H.parts held }
{
    let service = service_of::<_, C, H>(alloc, roomy(0, 8), NoGate, credits, held)?;
    let seats = two_hundred(rt, alloc, &service);
    closed(service, seats)
}

fn four_threads<R: Threads + Wait + Sync>(rt: &R, alloc: Global) -> Closed {
    four_threads_named::<Brand, Brand, R>(rt, alloc, blank(), blank())
}

#[test]
fn four_threads_admit_and_retire_at_once(rt: HostRuntime) -> Result<(), Fail> {
    let transcripts = four_threads(&rt, rt.alloc())??;
    assert_eq!(rt; transcripts.as_slice().len(), 200);
    for transcript in transcripts.as_slice() {
        assert_eq!(rt; transcript.entries().len(), 5);
    }
    Ok(())
}
