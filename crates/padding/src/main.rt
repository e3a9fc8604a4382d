// The padding report as a program by itself: two lines of standard input, the first K and the last. `./interleaver padding` prints the same.
#![tactic(auto)]

use system::System;

fn main(rt: HostRuntime) {
    let system = System::of(rt);
    report_pages::report(system);
}
