// How many steps a window has left.
ghost use Rattle.std.specs.Prelude.{◌≡◌, suc, ◌-◌, ◌%◌, ◌<◌};
ghost use Rattle.frame.specs.Frame.{before, frame_length, window_at, Timed};

use frame::{Frame, frame_length, window_within};

// The steps up to the end of window k.
fn end_of_window(f: Frame, k: u8) -> u32
    requires { k < 64 }
    ensures { result ≡ before f (suc k) }
{
    let windows = k + 1;
    let mut end = 0;
    for j in 0..windows {
        let w = f.windows[j as usize];
        end += w.length as u32;
    }
    end
}

// The steps that the window of a clock has left, that of the clock counted.
pub fn steps_left(f: Frame, clock: u32) -> u32
    requires { Timed f }
    ensures { result ≡ before f (suc (window_at f clock)) - clock % frame_length f }
{
    let length = frame_length(f);
    let place = clock % length;
    let k = window_within(f, place);
    end_of_window(f, k) - place
}
