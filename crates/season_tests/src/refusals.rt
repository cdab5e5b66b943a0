// Refusals as text.
use season::refusal::{Lent, Refusal};
use std::process::Abort;
use std::test::Fail;

// Each refusal is printed as its line.
fn check_lines(rt: &(impl Abort + AllocGlobal), cases: &[(Refusal, &str)]) -> Result<(), Fail> {
    for (refusal, line) in cases {
        assert_eq!(rt; refusal.to_string(rt.alloc())?.as_str(), *line);
    }
    Ok(())
}

#[test]
fn each_refusal_has_its_number_and_place(rt: HostRuntime) -> Result<(), Fail> {
    check_lines(
        &rt,
        &[
            (Refusal::PlanTeams, "refused 1 at 0"),
            (Refusal::TableTeams, "refused 2 at 0"),
            (Refusal::FileEnds(6), "refused 3 at 6"),
            (Refusal::PointsAbove(2), "refused 4 at 2"),
            (Refusal::GamesLength(12), "refused 5 at 12"),
            (Refusal::NoSuchTeam(3), "refused 6 at 3"),
            (Refusal::AgainstItself(0), "refused 7 at 0"),
            (Refusal::AuditPlan(13), "refused 8 at 13"),
            (Refusal::AuditEnding(1), "refused 9 at 1"),
        ],
    )
}

#[test]
fn short_memory_is_told_apart(rt: HostRuntime) -> Result<(), Fail> {
    check_lines(
        &rt,
        &[
            (Refusal::MemoryShort(Lent::Row), "refused 10 at 0"),
            (Refusal::MemoryShort(Lent::Points), "refused 10 at 1"),
            (Refusal::MemoryShort(Lent::Flow), "refused 10 at 2"),
        ],
    )
}
