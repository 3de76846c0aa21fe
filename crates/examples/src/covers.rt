// Covers of cubes: entries, links and runs, as lists of requests.
use crate::rows::{Row, cube};
use cover::record::Record;
use cover::run::End;
use cover::serve::{Answer, Request, serve};
use cube::Cube;
use esop::product::Product;
use esop::refusal::Refusal;
use esop::strategy::Strategy;
use std::io;

// What a request was answered.
fn print_answer(rt: &HostRuntime, answer: &Answer) -> io::Result<()> {
    match answer {
        Answer::Entered(Ok(count)) => println!(rt; "entered: {count} products"),
        Answer::Entered(Err(why)) => println!(rt; "refused {}", why.number()),
        Answer::Linked(Ok(count)) => println!(rt; "linked: {count} products"),
        Answer::Linked(Err(why)) => println!(rt; "refused {}", why.number()),
        Answer::Ran(Ok((end, record))) => print_run(rt, *end, record),
        Answer::Ran(Err(why)) => println!(rt; "refused {}", why.number()),
    }
}

// How a run ended, and its record, a row for each distance.
fn print_run(rt: &HostRuntime, end: End, record: &Record) -> io::Result<()> {
    let how = match end {
        End::Spent => "spent its budget",
        End::Finished => "finished",
    };
    println!(rt; "ran, and {how}:")?;
    for row in record.rows {
        println!(rt; "  tried {} kept {}", row.tried, row.kept)?;
    }
    Ok(())
}

// Serves the requests on a cover of the places, and prints the answers and the products that are left.
fn play(
    rt: &HostRuntime,
    list: &[Cube],
    requests: &[Request<Cube, Strategy>],
    places: &mut [Cube],
    work: &mut [Cube],
) -> io::Result<()> {
    let mut answers = [Answer::Entered(Ok(0)); 4];
    let Ok(count) = serve(places, list, requests, work, &mut answers) else {
        return println!(rt; "more requests than places for answers");
    };
    for answer in answers.iter().take(requests.len()) {
        print_answer(rt, answer)?;
    }
    for product in places.iter().take(count) {
        let row = Row {
            cube: *product,
            inputs: 5,
            outputs: 1,
        };
        println!(rt; "{row}")?;
    }
    Ok(())
}

// The rows 11-, 00- and -11 under Reduce and then Refine, with this budget each.
fn both_runs(rt: &HostRuntime, budget: u32) -> io::Result<()> {
    println!(rt; "11-, 00-, -11: reduce, then refine, with budget {budget}")?;
    let list = [cube("11-", 1), cube("00-", 1), cube("-11", 1)];
    let requests = [
        Request::EnterAll { from: 0, to: 3 },
        Request::Run {
            criterion: Strategy::Reduce,
            budget,
        },
        Request::Run {
            criterion: Strategy::Refine,
            budget,
        },
    ];
    play(
        rt,
        &list,
        &requests,
        &mut [Cube::tautology(); 8],
        &mut [Cube::tautology(); 10],
    )
}

// Two rows linked under a criterion by an order number.
fn one_link(
    rt: &HostRuntime,
    [first, second]: [&str; 2],
    criterion: Strategy,
    order: usize,
    work: usize,
) -> io::Result<()> {
    println!(rt;
        "{first}, {second}: link by order {order} under {criterion}, {work} places of work memory"
    )?;
    let list = [cube(first, 1), cube(second, 1)];
    let requests = [
        Request::EnterAll { from: 0, to: 2 },
        Request::Link {
            criterion,
            first: 0,
            second: 1,
            order,
        },
    ];
    let mut memory = [Cube::tautology(); 8];
    let places = work.min(8);
    play(
        rt,
        &list,
        &requests,
        &mut [Cube::tautology(); 8],
        &mut memory[0..places],
    )
}

// Products that meet in a cover.
fn entries(rt: &HostRuntime) -> io::Result<()> {
    println!(rt; "11 into 11")?;
    let list = [cube("11", 1), cube("00", 1), cube("0-", 1)];
    let twice = [Request::Enter(list[0]), Request::Enter(list[0])];
    play(rt, &list, &twice, &mut [Cube::tautology(); 2], &mut [])?;
    println!(rt; "0- into 11, 00")?;
    let all = [Request::EnterAll { from: 0, to: 9 }];
    play(rt, &list, &all, &mut [Cube::tautology(); 3], &mut [])?;
    println!(rt; "11, 00, 0- into two places")?;
    play(rt, &list, &all, &mut [Cube::tautology(); 2], &mut [])
}

// Links that are kept, and links that are refused.
fn links(rt: &HostRuntime) -> io::Result<()> {
    one_link(rt, ["11", "00"], Strategy::Refine, 0, 4)?;
    one_link(rt, ["11", "00"], Strategy::Refine, 1, 4)?;
    one_link(rt, ["11", "00"], Strategy::Reduce, 0, 4)?;
    one_link(rt, ["11", "00"], Strategy::Reduce, 1, 4)?;
    one_link(rt, ["11111", "00000"], Strategy::Reduce, 0, 4)?;
    one_link(rt, ["11", "00"], Strategy::Refine, 2, 4)?;
    one_link(rt, ["11", "00"], Strategy::Refine, 0, 3)
}

pub(crate) fn all(rt: &HostRuntime) -> io::Result<()> {
    entries(rt)?;
    links(rt)?;
    both_runs(rt, 1_000_000)?;
    both_runs(rt, 7)?;
    both_runs(rt, 6)
}
