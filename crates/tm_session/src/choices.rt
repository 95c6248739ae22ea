ghost use Rattle.std.specs.Prelude.{◌≡◌, ◌≤◌, length};
ghost use Rattle.tm_replay.specs.Bars.{bars_of};
ghost use Rattle.tm_replay.specs.Choosing.{runnable_threads};
ghost use Rattle.tm_session.specs.Choices.{chosen_thread, draw_after, picked};

use tm_base::{next_draw, place_of};
use tm_joint::Joint;

/// The thread that moves, by the joint state, the schedule, the thread that moved last and the number that
/// was drawn for this move. `None` exactly where no thread is runnable.
pub fn choose(joint: &Joint, schedule: u64, last: u32, draw: u64) -> Option<u32>
    requires known { last ≤ length joint.now.exercise.programs }
    ensures { result ≡ chosen_thread schedule (bars_of joint.now.state) last draw }
{
    if schedule == 0 {
        return joint.next_runnable(last);
    }
    pick(joint, draw)
}

/// The number that is drawn for the next move, after this one.
pub fn draw_after(schedule: u64, draw: u64) -> u64
    ensures { result ≡ draw_after schedule draw }
{
    if schedule == 0 { draw } else { next_draw(draw) }
}

/// The runnable thread that the number picks. `None` exactly where there is none to pick from.
fn pick(joint: &Joint, draw: u64) -> Option<u32>
    ensures { result ≡ picked (runnable_threads (bars_of joint.now.state)) draw }
{
    let runnable = joint.runnable_count();
    if runnable == 0 {
        return None;
    }
    joint.nth_runnable(place_of(draw, runnable))
}

#[cfg(test)]
mod tests {
    use super::*;
    use std::test::Fail;

    #[test]
    fn schedule_1_first_draws_its_number(rt: HostRuntime) -> Result<(), Fail> {
        assert_eq!(rt; draw_after(1, 1), 7_806_831_264_735_756_412);
        assert_eq!(rt; draw_after(0, 1), 1);
        Ok(())
    }

    #[test]
    fn the_upper_bits_pick(rt: HostRuntime) -> Result<(), Fail> {
        let draw = 7_806_831_264_735_756_412;
        assert_eq!(rt; draw >> 33, 908_834_774);
        assert_eq!(rt; place_of(draw, 3), 2);
        Ok(())
    }
}
