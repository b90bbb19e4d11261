//! What the signs of pictures in text mean.

ghost use Rattle.std.specs.Prelude.{◌≡◌, map};
ghost use Rattle.draw_report.specs.Legend.{lanes_legend, marks_legend};

/// The marks of lines.
pub fn marks_legend() -> &'static [&'static str]
    ensures { map (λ p. p.now) result.now ≡ marks_legend }
{
    &[
        "A row is a line of the trace: the number of its event, who owns each mutex behind it, and a lane for each thread.\n",
        "┌",
        " lock m0        the thread begins a call\n",
        "●",
        " m0 OK          the call takes effect, with its reply\n",
        "└",
        " OK             the call returns\n",
        "z on m0          the thread falls asleep\n",
        "> woken, < woken it is woken by the thread from whose lane the arrow comes\n",
        "> to m0, < to m0 it is moved, asleep, to the mutex\n",
        "○",
        " woken          it left its queue by itself or at its time limit, or no line tells who woke it\n",
        "╳",
        " killed         the thread is killed\n",
        "! m0 owner died  the kernel marks a mutex that it owned\n",
        "†",
        " reaped         the kernel has gone through its list\n",
        "* renewed        it lives anew: its id is used again\n",
    ]
}

/// What lanes show between marks, and the columns of mutexes at every row.
pub fn lanes_legend() -> &'static [&'static str]
    ensures { map (λ p. p.now) result.now ≡ lanes_legend }
{
    &[
        "A lane shows what its thread does:\n",
        "·",
        "   it is in no call\n",
        "│",
        "   it is in a call\n",
        "z   it is asleep in a call\n",
        "╎",
        "   it was killed, and the kernel goes through its list\n",
        "†",
        "   it was reaped\n",
        "Below a mutex stands its owner:\n",
        "t1    t1 owns it\n",
        "t1!   t1 owns it, and has to declare it consistent: an owner died\n",
        "-!    an owner died, and nobody was told yet\n",
        "-     nobody owns it\n",
        "lost  nobody can have it, unless it is made anew\n",
    ]
}
