// What reading answers is specifications only: see specs/.
