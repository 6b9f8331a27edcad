//! What passes between the actors of a run and its host, and the journal that keeps it: the words in
//! which the layers above speak of one another.
#![tactic(auto)]

mod grants;
mod journal;
mod limits;
mod lists;
mod marks;
mod members;
mod requests;
mod same;
mod values;
mod zones;

pub use grants::GrantSet;
pub use journal::{Journal, JournalFault};
pub use limits::{
    ADDRESS_LIMIT, CELL_LIMIT, DEPTH_LIMIT, DISPATCH_LIMIT, FUEL_LIMIT, LEVEL_LIMIT,
    LISTENER_LIMIT, MARK_LIMIT, NESTED_DISPATCH_LIMIT, NODE_LIMIT, PAGE_LIMIT, TASK_LIMIT,
    TIMER_LIMIT, USERSCRIPT_LIMIT,
};
pub use lists::{List, Texts, Values};
pub use marks::{Entry, Mark, Outcome, StopKind, Task};
pub use members::Member;
pub use requests::{Answer, ErrorKind, ReachOp, Request, ServeOp};
pub use same::{Same, is_same, share};
pub use values::{Actor, DOCUMENT, HOST, Kind, Look, PAGE, Shape, Thing, Value, WINDOW};
pub use zones::{Zone, looks_are_never_waived};

#[cfg(test)]
mod tests {
    use super::*;
    use base_text::Text;
    use std::test::Fail;

    #[test]
    fn a_journal_takes_as_many_marks_as_its_limit(rt: HostRuntime) -> Result<(), Fail> {
        let mut journal = Journal::new(rt.alloc(), 2);
        let pushes = [
            (Task::Piece(0), Ok(())),
            (Task::Ready, Ok(())),
            (Task::Load, Err(JournalFault::Full)),
        ];
        for (task, want) in pushes {
            assert_eq!(rt; journal.push(Mark::Turn(task)), want);
        }
        assert_eq!(rt; journal.len(), 2);
        assert_eq!(rt; journal.marks().len(), 2);
        assert!(rt;
            is_same(
                journal.at(1).unwrap_or(&Mark::Turn(Task::Load)),
                &Mark::Turn(Task::Ready)
            )
        );
        assert!(rt; journal.at(2).is_none());
        Ok(())
    }

    #[test]
    fn lists_grow_and_are_shared(rt: HostRuntime) -> Result<(), Fail> {
        let alloc = rt.alloc();
        let mut values = Values::new(alloc);
        values.push(Value::Number(7))?;
        values.push(Value::Str(Text::of(alloc, "title")?))?;
        assert_eq!(rt; values.len(), 2);
        assert!(rt; values.at(0) == Some(&Value::Number(7)));
        let window = Thing {
            kind: Kind::Window,
            number: 0,
        };
        let asked = Mark::Ask(
            Actor(2),
            Request::Native(Member::GmLog, window, share(&values)?),
            Answer::Value(Value::Undefined),
        );
        assert!(rt; is_same(&asked, &share(&asked)?));
        assert!(rt; !is_same(&values, &Values::new(alloc)));
        assert!(rt; values == Values::from_vec(values.clone()?.into_vec()));
        Ok(())
    }
}
