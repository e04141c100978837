// What there is.
use super::say::say;

const LINES: [&str; 19] = [
    "A TABLE is a file in bytes or in the comma form; - is standard input.\n",
    "  check TABLE           legal V D N: its version, domains and threads\n",
    "  bytes TABLE           the table in bytes\n",
    "  sheet TABLE           the table in the comma form\n",
    "  plan TABLE            a line a thread: mark, bound, lengths searched, prohibition time; admitted, or without I\n",
    "  mend ROWS             one line of rows made transitive, and the pairs added\n",
    "STEPS has one byte a thread and step: 1 run, 2 finish, any other wait.\n",
    "  run TABLE STEPS       a line a step: the clock and Ti ran, Ii idle on i's account, -- idle\n",
    "      shown D           as domain D is shown it: Ti or gap\n",
    "      state             and at the end a line a thread\n",
    "  trace TABLE STEPS     a byte a step: i ran, 32 + i idle on i's account, 255 idle\n",
    "  drive TABLE STEPS COMMANDS   a line a step: what ran, the command that stands, the position\n",
    "      rate R start P thread I   1 to 1000 a step, the start position, the pitch thread (1000, 0, 0)\n",
    "  run, trace and drive also take\n",
    "      events FILE       a mask of events a step, four bytes, the lowest first\n",
    "      frame FILE        lines DOMAIN,LENGTH: the windows of a repeating frame\n",
    "  clean TABLE TRACE     a line STEP BEFORE AFTER for each cleaning of the shared cache, and how many\n",
    "  help                  this\n",
    "A refusal is the last line: refused, its number and its place or clock. Status 0, 1 for a refusal, 2 for wrong use.\n",
];

pub fn help(rt: &(impl Print + Eprint)) {
    for line in LINES {
        say(rt, line);
    }
}
