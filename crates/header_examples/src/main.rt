// Runs the operations on header sets on examples beyond document 01's, and prints what they give, a set as care / value.
#![tactic(auto)]

use actions::Action;
use headers::Transfer;
use sets::HeaderSet;
use std::io::Print;
use std::{fmt, io};

// Words in hexadecimal digits, a space before each.
#[derive(Drop)]
struct Words([u32; 4]);

impl fmt::Display for Words {
    fn fmt<W: fmt::Write>(&self, f: &mut fmt::Formatter<W>) -> fmt::Result {
        for w in self.0 {
            write!(f, " {w:08x}")?;
        }
        Ok(())
    }
}

// A set as care / value.
#[derive(Drop)]
struct Set(HeaderSet);

impl fmt::Display for Set {
    fn fmt<W: fmt::Write>(&self, f: &mut fmt::Formatter<W>) -> fmt::Result {
        write!(f, "{} /{}", Words(self.0.care), Words(self.0.value))
    }
}

// A set, or empty.
#[derive(Drop)]
struct Answer(Option<HeaderSet>);

impl fmt::Display for Answer {
    fn fmt<W: fmt::Write>(&self, f: &mut fmt::Formatter<W>) -> fmt::Result {
        match self.0 {
            Some(s) => write!(f, "{}", Set(s)),
            None => write!(f, " empty"),
        }
    }
}

fn yes_or_no(yes: bool) -> &'static str {
    if yes { "yes" } else { "no" }
}

// The parts of p carved by b, a line each, in their order. A turn makes the bits of the next, so this is no `for`.
fn put_parts(rt: &impl Print, label: &str, p: HeaderSet, b: HeaderSet) -> io::Result<()> {
    println!(rt; "{label}")?;
    if !p.overlaps(b) {
        return println!(rt; "{}", Set(p));
    }
    let mut rest = p;
    let mut free = rest.free(b);
    while !words::none_set(free) {
        let bit = words::first_bit(free);
        println!(rt; "{}", Set(rest.unlike(bit, b)))?;
        let later = words::outside(bit, free);
        rest = rest.like(bit, b);
        free = later;
    }
    Ok(())
}

fn subnet() -> HeaderSet {
    HeaderSet {
        care: [0, 0xffff_ff00, 0, 0],
        value: [0, 0x0a00_0100, 0, 0],
    }
}

fn web() -> HeaderSet {
    HeaderSet {
        care: [0, 0, 0xffff, 0xff],
        value: [0, 0, 80, 6],
    }
}

// Value bits outside care.
fn malformed() -> HeaderSet {
    HeaderSet {
        care: [0, 0, 0xff, 0],
        value: [0, 0, 0x1ff, 1],
    }
}

fn members(rt: &impl Print) -> io::Result<()> {
    println!(rt;
        "subnet holds 10.0.1.7: {}",
        yes_or_no(subnet().contains([1, 0x0a00_0107, 0, 0]))
    )?;
    println!(rt;
        "subnet holds 10.0.2.7: {}",
        yes_or_no(subnet().contains([1, 0x0a00_0207, 0, 0]))
    )?;
    println!(rt;
        "all wild holds all ones: {}",
        yes_or_no(HeaderSet::all_wild().contains([0xffff_ffff; 4]))
    )?;
    println!(rt;
        "malformed holds ff: {}",
        yes_or_no(malformed().contains([7, 7, 0xff, 7]))
    )?;
    println!(rt;
        "malformed holds 1fe: {}",
        yes_or_no(malformed().contains([7, 7, 0x1fe, 7]))
    )?;
    println!(rt; "subnet is tidy: {}", yes_or_no(subnet().is_tidy()))?;
    println!(rt; "malformed is tidy: {}", yes_or_no(malformed().is_tidy()))?;
    println!(rt; "lowest of subnet:{}", Words(subnet().lowest()))?;
    println!(rt; "lowest of malformed:{}", Words(malformed().lowest()))
}

fn meetings(rt: &impl Print) -> io::Result<()> {
    let narrow = HeaderSet {
        care: [0, 0xffff_ffff, 0, 0],
        value: [0, 0x0a00_0207, 0, 0],
    };
    println!(rt; "subnet and web:{}", Answer(subnet().intersect(web())))?;
    println!(rt;
        "subnet and a host outside:{}",
        Answer(subnet().intersect(narrow))
    )?;
    println!(rt;
        "web and all wild:{}",
        Answer(web().intersect(HeaderSet::all_wild()))
    )
}

// An action of this transfer that sets tp_dst to 25.
fn mail(transfer: Transfer) -> Action {
    Action {
        transfer,
        mask: [0, 0, 0xffff, 0],
        value: [0, 0, 25, 0],
    }
}

// The headers that an action takes into a set, whatever they match.
fn undone(action: Action, t: HeaderSet) -> Option<HeaderSet> {
    action.undo(t, HeaderSet::all_wild())
}

fn rewrites(rt: &impl Print) -> io::Result<()> {
    println!(rt;
        "to port 25:{}",
        Words(mail(Transfer::Keep).apply([9, 9, 0x0001_0050, 6]))
    )?;
    println!(rt;
        "no rewrite:{}",
        Words(Action::no_rewrite().apply([9, 9, 0x0001_0050, 6]))
    )?;
    let smtp = HeaderSet {
        care: [0, 0, 0xffff, 0xff],
        value: [0, 0, 25, 6],
    };
    println!(rt;
        "into port 25:{}",
        Answer(undone(mail(Transfer::Keep), smtp))
    )?;
    println!(rt; "into web:{}", Answer(undone(mail(Transfer::Keep), web())))?;
    println!(rt;
        "no rewrite into web:{}",
        Answer(undone(Action::no_rewrite(), web()))
    )
}

// From this network of 16 bits to the subnet.
fn to_subnet(network: u32) -> HeaderSet {
    HeaderSet {
        care: [0xffff_0000, 0xffff_ff00, 0, 0],
        value: [network, 0x0a00_0100, 0, 0],
    }
}

fn transfers(rt: &impl Print) -> io::Result<()> {
    println!(rt;
        "copied, to port 25:{}",
        Words(mail(Transfer::Copy).apply([9, 7, 0x0001_0050, 6]))
    )?;
    println!(rt;
        "swapped, to port 25:{}",
        Words(mail(Transfer::Swap).apply([9, 7, 0x0001_0050, 6]))
    )?;
    let inside = to_subnet(0x0a00_0000);
    let outside = to_subnet(0x0b00_0000);
    println!(rt;
        "copied to the subnet from inside:{}",
        Answer(undone(mail(Transfer::Copy), inside))
    )?;
    println!(rt;
        "copied to the subnet from outside:{}",
        Answer(undone(mail(Transfer::Copy), outside))
    )?;
    println!(rt;
        "swapped to the subnet from outside:{}",
        Answer(undone(mail(Transfer::Swap), outside))
    )?;
    println!(rt;
        "copied to the subnet from inside, if web:{}",
        Answer(mail(Transfer::Copy).undo(inside, web()))
    )?;
    println!(rt;
        "swapped to the subnet from outside, if in the subnet:{}",
        Answer(mail(Transfer::Swap).undo(outside, subnet()))
    )
}

fn carvings(rt: &impl Print) -> io::Result<()> {
    put_parts(rt, "subnet by web:", subnet(), web())?;
    put_parts(
        rt,
        "web by subnet's last hosts:",
        web(),
        HeaderSet {
            care: [0x8000_0001, 0, 0, 0],
            value: [0x8000_0000, 0, 0, 0],
        },
    )?;
    put_parts(rt, "web by itself:", web(), web())?;
    put_parts(rt, "web by all wild:", web(), HeaderSet::all_wild())?;
    put_parts(
        rt,
        "web by another protocol:",
        web(),
        HeaderSet {
            care: [0, 0, 0, 0xff],
            value: [0, 0, 0, 17],
        },
    )
}

fn main(rt: HostRuntime) -> io::Result<()> {
    members(&rt)?;
    meetings(&rt)?;
    rewrites(&rt)?;
    transfers(&rt)?;
    carvings(&rt)
}
