//! Known situations of all objects, as steps texts. Their answers stand in `examples/`, which
//! `checks/examples.py` compares with the program; it also finds each of these texts there.

ghost use Rattle.std.specs.Prelude.{◌≡◌, length};

/// Returns the known situations.
pub fn situations() -> &'static [&'static str]
    ensures { length result.now ≡ 28 }
{
    &SITUATIONS
}

const SITUATIONS: [&str; 28] = [
    "aqs-steps 1 lock fair seats 1 conditions 0 cap 16\n0 acquire x 1\n0 give x 1\nend 2\n",
    "aqs-steps 1 lock fair seats 1 conditions 0 cap 16\nend 0\n",
    "aqs-steps 1 lock nonfair seats 3 conditions 0 cap 64\n0 acquire x 1\n1 acquire x 1\n0 give x 1\n\
        2 acquire x 1\n1 look\n2 give x 1\n1 look\nend 7\n",
    "aqs-steps 1 lock fair seats 3 conditions 0 cap 64\n0 acquire x 1\n1 acquire x 1\n0 give x 1\n\
        2 tryfair x 1\n2 try x 1\n1 look\nend 6\n",
    "aqs-steps 1 lock fair seats 2 conditions 1 cap 64\n0 acquire x 1\n0 acquire x 1\n0 acquire x 1\n\
        0 await 0\n1 acquire x 1\n1 signal 0\n0 look\n1 give x 1\n0 look\n0 give x 1\n0 give x 1\n\
        0 give x 1\n0 give x 1\nend 13\n",
    "aqs-steps 1 lock nonfair seats 2 conditions 1 cap 64\n0 acquire x 1\n1 give x 1\n1 await 0\n\
        1 signal 0\n1 signalall 0\n0 await 1\n0 acquire s 1\n0 look\n0 signal 0\nend 9\n",
    "aqs-steps 1 lock nonfair seats 3 conditions 0 cap 64\n0 acquire x 1\n1 acquire x 1\n2 acquire x 1\n\
        0 give x 1\n1 expire\n2 expire\nend 6\n",
    "aqs-steps 1 lock nonfair seats 3 conditions 0 cap 64\n0 acquire x 1\n1 acquire x 1\n2 acquire x 1\n\
        0 give x 1\n1 interrupt\n2 look\nend 6\n",
    "aqs-steps 1 lock fair seats 2 conditions 1 cap 64\n0 acquire x 1\n0 await 0\n0 interrupt\n0 look\n\
        0 give x 1\nend 5\n",
    "aqs-steps 1 lock fair seats 2 conditions 1 cap 64\n0 acquire x 1\n0 await 0\n1 acquire x 1\n\
        1 signal 0\n0 interrupt\n1 give x 1\n0 look\nend 7\n",
    "aqs-steps 1 rw fair seats 4 conditions 0 cap 64\n0 acquire s 1\n1 acquire x 1\n2 acquire s 1\n\
        3 acquire s 1\n1 expire\n2 look\n3 look\nend 7\n",
    "aqs-steps 1 rw nonfair seats 4 conditions 0 cap 64\n0 acquire s 1\n1 acquire x 1\n2 acquire s 1\n\
        3 acquire s 1\n1 expire\n2 look\n3 look\nend 7\n",
    "aqs-steps 1 semaphore fair seats 2 permits -2 cap 64\n0 acquire s 1\n1 give s 1\n1 give s 1\n\
        1 give s 1\n0 look\nend 5\n",
    "aqs-steps 1 semaphore fair seats 3 permits 5 cap 64\n0 acquire s 9\n1 acquire s 1\n2 try s 1\nend 3\n",
    "aqs-steps 1 semaphore nonfair seats 3 permits 5 cap 64\n0 acquire s 9\n1 acquire s 1\n2 try s 1\n\
        end 3\n",
    "aqs-steps 1 semaphore nonfair seats 2 permits 1 cap 64\n0 give s 2147483647\n0 acquire s 1\n\
        1 give s 1\n0 give s 2147483646\n1 give s 0\n1 give s 2147483648\n0 drain\n1 drain\nend 8\n",
    "aqs-steps 1 rw nonfair seats 2 conditions 1 cap 64\n0 acquire x 1\n0 acquire s 1\n0 await 0\n\
        0 give x 1\n1 try s 1\n1 give x 1\nend 6\n",
    "aqs-steps 1 lock fair seats 3 conditions 0 cap 16\n0 acquire x 1\n1 acquire x 1\n0 acquire x 1\n\
        0 acquire x 1\n0 acquire x 1\n0 acquire x 1\n0 acquire x 1\n0 acquire x 1\n2 try x 1\n2 try x 1\n\
        0 give x 1\n0 give x 1\n0 give x 1\n0 give x 1\n0 give x 1\n0 give x 1\n1 look\n1 give x 1\n\
        1 give x 1\nend 19\n",
    "aqs-steps 1 latch seats 1 count 0 cap 16\n0 acquire s 1\nend 1\n",
    "aqs-steps 1 latch seats 2 count 2 cap 16\n0 acquire s 1\n1 give s 1\n1 give s 1\n1 give s 1\n0 look\n\
        1 tryfair s 1\n1 try s 1\nend 7\n",
    "aqs-steps 1 semaphore nonfair seats 2 permits 0 cap 64\n0 acquire s 0\n0 tryfair s 1\n1 acquire s 2\n\
        0 give s 1\n0 drain\n0 give s 2\n1 look\nend 7\n",
    "aqs-steps 1 semaphore fair seats 3 permits 0 cap 64\n0 acquire s 1\n1 acquire s 0\n2 give s 1\n\
        0 look\n1 look\nend 5\n",
    "aqs-steps 1 rw nonfair seats 2 conditions 0 cap 64\n0 acquire x 1\n0 acquire s 1\n1 acquire s 1\n\
        0 give x 1\n1 look\n1 acquire x 1\n1 expire\n1 give s 1\n0 give s 1\nend 9\n",
    "aqs-steps 1 lock fair seats 4 conditions 0 cap 64\n0 acquire x 1\n1 acquire x 1\n2 acquire x 1\n\
        3 acquire x 1\n2 interrupt\n2 acquire x 1\n1 interrupt\n3 look\n0 give x 1\n2 look\n3 look\n\
        3 give x 1\n2 look\nend 13\n",
    "aqs-steps 1 semaphore nonfair seats 3 permits 0 cap 64\n0 acquire s 1\n1 give s 1\n1 give s 1\n\
        0 look\nend 4\n",
    "aqs-steps 1 rw fair seats 3 conditions 0 cap 64\n0 acquire s 1\n1 acquire x 1\n2 acquire s 1\n\
        1 expire\n0 give s 1\n2 look\nend 6\n",
    "aqs-steps 1 lock strict seats 3 conditions 0 cap 64\n0 acquire x 1\n1 acquire x 1\n0 give x 1\n\
        2 tryfair x 1\n2 try x 1\n1 look\n2 acquire x 1\n1 try x 1\nend 8\n",
    "aqs-steps 1 semaphore strict seats 3 permits 5 cap 64\n0 acquire s 9\n1 acquire s 1\n2 try s 1\n\
        end 3\n",
];
