// Plan files that are stored beside this program, as its arguments name them: each is judged, and compared with the next.
#![tactic(auto)]

use system::System;

fn main(rt: HostRuntime) {
    let system = System::of(rt);
    let n = system.arg_count();
    for i in 1..n {
        plan_pages::judged::judge(system, i);
        if i < n - 1 {
            plan_pages::compared::differ(system, i, i + 1);
        }
    }
}
