use kroute::{Coupling, Kernel, TableMemory, Tables};
use net_base::{Addr, Family, Prefix};
use std::alloc::Global;
use std::process::Abort;
use std::test::Fail;

#[test]
fn kernel_rows_go_by_prefix(rt: HostRuntime) -> Result<(), Fail> {
    let alloc = rt.alloc();
    let (v4, v6) = (Family::V4, Family::V6);
    let long = Prefix {
        family: v6,
        bits: 0,
        len: 64,
    };
    let short = Prefix {
        family: v4,
        bits: 0,
        len: 8,
    };
    let (one, two) = (
        Addr {
            family: v4,
            bits: 1,
        },
        Addr {
            family: v4,
            bits: 2,
        },
    );
    let mut kernel = TableMemory::new(alloc);
    assert_eq!(rt; kernel.set(7, long, one), Ok(()));
    assert_eq!(rt; kernel.set(7, short, one), Ok(()));
    assert_eq!(rt; kernel.set(7, long, two), Ok(()));
    assert_eq!(rt; kernel.set(8, long, one), Ok(()));
    assert_eq!(rt;
        kernel.list(alloc, 7)?.as_slice(),
        [(short, one), (long, two)].as_slice()
    );
    assert_eq!(rt; kernel.del(7, short), Ok(()));
    assert_eq!(rt; kernel.list(alloc, 7)?.as_slice(), [(long, two)].as_slice());
    assert_eq!(rt; kernel.list(alloc, 9)?.len(), 0);
    assert_eq!(rt; kernel.listed(), 3);
    assert_eq!(rt; kernel.faults(7), 0);
    Ok(())
}

/// A step of a run on the tables 1 and 2.
#[derive(Drop)]
enum Step {
    Add(u32),
    Remove(u32),
    Want(u32, Prefix),
    WantNone(u32, Prefix),
    Couple(u32),
    Decouple(u32),
    Arrange(u32, u32),
    /// A unit, with the table that it loses.
    Unit(Option<u32>),
    /// The lowest table with a job.
    Job(Option<u32>),
    /// How a table stands, how many rows of it are wanted, and how many the kernel has.
    Stands(u32, Option<Coupling>, usize, usize),
}

/// Takes the steps one by one.
fn run(
    rt: &impl Abort,
    alloc: Global,
    hop: Addr,
    kernel: &mut TableMemory,
    steps: &[Step],
) -> Result<(), Fail> {
    let mut tables = Tables::new(alloc);
    for step in steps {
        match step {
            Step::Add(table) => tables.add(*table)?,
            Step::Remove(table) => tables.remove(*table),
            Step::Want(table, prefix) => tables.set(*table, *prefix, hop)?,
            Step::WantNone(table, prefix) => tables.del(*table, *prefix)?,
            Step::Couple(table) => tables.couple(*table)?,
            Step::Decouple(table) => tables.decouple(*table)?,
            Step::Arrange(table, n) => tables.arrange(*table, *n)?,
            Step::Unit(lost) => assert_eq!(rt; tables.unit(kernel)?, *lost),
            Step::Job(job) => assert_eq!(rt; tables.job(), *job),
            Step::Stands(table, coupling, wanted, held) => {
                assert_eq!(rt; tables.coupling(*table), *coupling);
                assert_eq!(rt; tables.len(*table), *wanted);
                assert_eq!(rt; tables.wanted(alloc, *table)?.len(), *wanted);
                assert_eq!(rt; kernel.list(alloc, *table)?.len(), *held);
            }
        }
    }
    Ok(())
}

#[test]
fn a_coupled_table_is_listed_and_put_right(rt: HostRuntime) -> Result<(), Fail> {
    let hop = Addr::read("192.0.2.1")?;
    let (one, two) = (Prefix::read("10.0.0.0/8")?, Prefix::read("2001:db8::/32")?);
    let mut kernel = TableMemory::new(rt.alloc());
    kernel.set(2, two, hop)?;
    let steps = [
        Step::Add(2),
        Step::Add(1),
        Step::Want(2, one),
        Step::Want(3, one),
        Step::Decouple(2),
        Step::Job(None),
        Step::Stands(2, Some(Coupling::Decoupled), 1, 1),
        Step::Couple(2),
        Step::Couple(1),
        Step::Job(Some(1)),
        Step::Unit(None),
        Step::Job(Some(2)),
        Step::Unit(None),
        Step::Unit(None),
        Step::Stands(2, Some(Coupling::Coupled), 1, 2),
        Step::Unit(None),
        Step::Job(None),
        Step::Stands(2, Some(Coupling::Coupled), 1, 1),
        Step::WantNone(2, one),
        Step::Unit(None),
        Step::Want(2, two),
        Step::Want(2, one),
        Step::Decouple(2),
        Step::Job(None),
        Step::Stands(2, Some(Coupling::Decoupled), 2, 0),
        Step::Remove(2),
        Step::Stands(2, None, 0, 0),
    ];
    run(&rt, rt.alloc(), hop, &mut kernel, &steps)
}

#[test]
fn an_arranged_failure_loses_its_table(rt: HostRuntime) -> Result<(), Fail> {
    let hop = Addr::read("192.0.2.1")?;
    let (one, two) = (Prefix::read("10.0.0.0/8")?, Prefix::read("10.0.0.0/9")?);
    let mut kernel = TableMemory::new(rt.alloc());
    let steps = [
        Step::Arrange(1, 9),
        Step::Arrange(1, 3),
        Step::Add(1),
        Step::Want(1, two),
        Step::Want(1, one),
        Step::Couple(1),
        Step::Unit(None),
        Step::Unit(None),
        Step::Unit(Some(1)),
        Step::Job(None),
        Step::Decouple(1),
        Step::Want(1, two),
        Step::Unit(None),
        Step::Stands(1, Some(Coupling::Lost), 2, 1),
        Step::Couple(1),
        Step::Unit(None),
        Step::Unit(None),
        Step::Job(None),
        Step::Stands(1, Some(Coupling::Coupled), 2, 2),
    ];
    run(&rt, rt.alloc(), hop, &mut kernel, &steps)
}
