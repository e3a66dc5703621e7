// A shortest session of the plan file on standard input, with the number of active sessions, or the refusal.
#![tactic(auto)]

fn main(rt: HostRuntime) {
    let mut err = rt.stderr();
    let mut file = [0u8; console::FILE];
    let Ok(n) = console::read_input(&mut rt.stdin(), &mut file) else {
        let _ = console::fail(&mut err, b"standard input");
        return;
    };
    let best = calls::best(&file[..n], 1000000);
    if console::put_best(&mut rt.stdout(), best).is_err() {
        let _ = console::fail(&mut err, b"standard output");
    }
}
