// What a component's timetable drives, its lowered rows, and that they drive the same: definitions and theorems only.
#![tactic(auto)]
