//! Worked windows.

use crate::window::Window;

fn window_of(numbers: &[u32]) -> Window {
    let mut window = Window::new();
    for n in numbers {
        let _ = window.note(*n);
    }
    window
}

#[test]
fn a_fifth_number_pushes_out_the_oldest(rt: HostRuntime) {
    let mut window = window_of(&[7, 3, 9, 1]);
    assert_eq!(rt; window.note(3), None);
    assert_eq!(rt; window.note(5), Some(7));
    assert!(rt; !window.holds(7) && window.holds(3) && window.holds(5));
    assert_eq!(rt; window.note(7), Some(3));
}

#[test]
fn numbers_come_out_the_oldest_first(rt: HostRuntime) {
    let mut window = window_of(&[7, 3, 7, 9]);
    assert_eq!(rt; window.pop(), Some(7));
    assert_eq!(rt; window.pop(), Some(3));
    assert_eq!(rt; window.pop(), Some(9));
    assert_eq!(rt; window.pop(), None);
}
