// What is printed.
pub fn say(text: &[u8]) {
    io::write_all(1, text);
}

pub fn number(n: u64) {
    io::print_decimal(1, n);
}

pub fn signed(z: i32) {
    if z < 0 {
        say(b"-");
    }
    number(z.unsigned_abs() as u64);
}
